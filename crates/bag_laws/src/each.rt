ghost use Rattle.std.specs.Prelude.{◌≡◌, ◌++◌, ℕ, min, List};
ghost use Rattle.std.specs.List.{dedup};
ghost use Rattle.std.specs.List.Sorted.{IsPermutation, IsSorted};
ghost use Rattle.row_core.specs.Bags.{SameBag, count_of, one_of_each as each_of};
ghost use Rattle.row_core.specs.Values.{row_cmp, same_row};
ghost use Rattle.bag_laws.specs.Rows.{OneRow, AreApart};

/// One of each row: of equal bags equal bags, of two parts without a common row the parts' own, and
/// what a sort and leaving out repeated neighbours give.
pub fn one_of_each()
    ensures counts { (row : OneRow) (rows : List OneRow)
        → count_of row (each_of rows) ≡ min 1 (count_of row rows) }
    ensures same { (rows others : List OneRow)
        → SameBag rows others → SameBag (each_of rows) (each_of others) }
    ensures sum { (rows others : List OneRow) → AreApart same_row rows others
        → each_of (rows ++ others) ≡ each_of rows ++ each_of others }
    ensures sorted { (rows sorted : List OneRow)
        → IsPermutation rows sorted → IsSorted row_cmp sorted
        → SameBag (dedup same_row sorted) (each_of rows) }
{}
