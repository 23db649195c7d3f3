ghost use Rattle.std.specs.Prelude.{◌≡◌, ◌++◌, Bool, List, map, filter};
ghost use Rattle.std.specs.List.{flat_map};
ghost use Rattle.row_core.specs.Bags.{SameBag};
ghost use Rattle.bag_laws.specs.Rows.{OneRow};

/// Being equal as bags is an equivalence.
pub fn bags_are_alike()
    ensures itself { (rows : List OneRow) → SameBag rows rows }
    ensures back { (rows others : List OneRow) → SameBag rows others → SameBag others rows }
    ensures through { (rows others more : List OneRow)
        → SameBag rows others → SameBag others more → SameBag rows more }
{}

/// Equal bags have equal sums, in either order.
pub fn concatenations()
    ensures same { (rows others more further : List OneRow)
        → SameBag rows others → SameBag more further
        → SameBag (rows ++ more) (others ++ further) }
    ensures swapped { (rows others : List OneRow) → SameBag (rows ++ others) (others ++ rows) }
{}

/// A filter of a sum is the sum of the filters, and a filter of equal bags gives equal bags.
pub fn filters()
    ensures sum { (test : OneRow → Bool) (rows others : List OneRow)
        → filter test (rows ++ others) ≡ filter test rows ++ filter test others }
    ensures same { (test : OneRow → Bool) (rows others : List OneRow)
        → SameBag rows others → SameBag (filter test rows) (filter test others) }
{}

/// A map of a sum is the sum of the maps, and a map of equal bags gives equal bags.
pub fn maps()
    ensures sum { (f : OneRow → OneRow) (rows others : List OneRow)
        → map f (rows ++ others) ≡ map f rows ++ map f others }
    ensures same { (f : OneRow → OneRow) (rows others : List OneRow)
        → SameBag rows others → SameBag (map f rows) (map f others) }
{}

/// The same of operators that give any number of rows for each row, where a row gives the same bag
/// on both sides.
pub fn flat_maps()
    ensures sum { (f : OneRow → List OneRow) (rows others : List OneRow)
        → flat_map f (rows ++ others) ≡ flat_map f rows ++ flat_map f others }
    ensures same { (f g : OneRow → List OneRow) (rows others : List OneRow)
        → ((row : OneRow) → SameBag (f row) (g row)) → SameBag rows others
        → SameBag (flat_map f rows) (flat_map g others) }
{}
