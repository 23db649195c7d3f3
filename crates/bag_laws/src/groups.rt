ghost use Rattle.std.specs.Prelude.{◌≡◌, List};
ghost use Rattle.row_core.specs.Bags.{SameBag, one_of_each};
ghost use Rattle.row_core.specs.Values.{same_row};
ghost use Rattle.bag_laws.specs.Rows.{OneRow, IsKeyed, grouped};

/// One of each row, and one row for each key, go by the rows that meet: equal rows, and rows with
/// equal keys.
pub fn groups_are_keyed()
    ensures each { IsKeyed same_row one_of_each }
    ensures grouped { (key_of : OneRow → OneRow) (row_for : OneRow → List OneRow → OneRow)
        → ((key : OneRow) (rows others : List OneRow)
        → SameBag rows others → row_for key rows ≡ row_for key others)
        → IsKeyed (λ a b. same_row (key_of a) (key_of b)) (grouped key_of row_for) }
{}
