ghost use Rattle.std.specs.Prelude.{◌≡◌, ◌++◌, ℕ, true, List};
ghost use Rattle.row_core.specs.Bags.{SameBag, one_of_each};
ghost use Rattle.row_core.specs.Values.{same_row};
ghost use Rattle.bag_laws.specs.Rows.{IsKeyed, OneRow};
ghost use Rattle.plan_model.specs.Joins.{matches};
ghost use Rattle.plan_model.specs.Operators.{aggregated, key_of};
ghost use Rattle.plan_model.specs.declared.agg.Agg.{Agg as OneAgg};
ghost use Rattle.operator_laws.specs.Applied.{left_columns, right_columns};

/// Distinct and aggregate go by keys: nothing from nothing, the same for the same bag, and for two
/// parts whose keys are apart what they give on each.
pub fn groups_go_by_keys()
    ensures distinct { IsKeyed same_row one_of_each }
    ensures aggregate { (keys : List ℕ) (aggs : List OneAgg)
        → IsKeyed (λ a b. same_row (key_of keys a) (key_of keys b)) (aggregated keys aggs) }
{}

/// One of each of two parts goes by one of each of the first, so rows of it that came before may be
/// let go, and by the bag of the second.
pub fn distinct_goes_by_parts()
    ensures first { (rows others more : List OneRow)
        → SameBag (one_of_each rows) (one_of_each others)
        → SameBag (one_of_each (rows ++ more)) (one_of_each (others ++ more)) }
    ensures second { (rows more further : List OneRow) → SameBag more further
        → SameBag (one_of_each (rows ++ more)) (one_of_each (rows ++ further)) }
{}

/// Rows that match have one key, so that any hash of it sends both to one place.
pub fn matching_rows_share_keys()
    ensures { (keys : List (ℕ × ℕ)) (left right : OneRow) → matches keys left right ≡ true
        → key_of (left_columns keys) left ≡ key_of (right_columns keys) right }
{}
