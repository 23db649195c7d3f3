ghost use Rattle.std.specs.Prelude.{◌≡◌, ◌↔◌, ℕ, List};
ghost use Rattle.std.specs.Cmp.Lexicographic.{slice_cmp};
ghost use Rattle.std.specs.List.Sorted.{IsPermutation, IsSorted};
ghost use Rattle.std.specs.Ordering.{is_lt, nat_cmp};
ghost use Rattle.row_core.specs.Bags.{SameBag, ascending};
ghost use Rattle.row_core.specs.Values.{row_cmp};
ghost use Rattle.bag_laws.specs.Rows.{OneRow, row_less};

/// Order doesn't matter: a list and another are equal bags exactly where the one is the other in
/// another order.
pub fn order_is_free()
    ensures { (rows others : List OneRow) → IsPermutation rows others ↔ SameBag rows others }
{}

/// Sorted equal bags are equal lists, and a sort gives the ascending list.
pub fn sorted_bags_are_equal()
    ensures equal { (rows others : List OneRow)
        → IsSorted row_cmp rows → IsSorted row_cmp others → SameBag rows others → rows ≡ others }
    ensures ascending { (rows others : List OneRow) → SameBag rows others
        → ascending row_less rows ≡ ascending row_less others }
    ensures sorted { (rows sorted : List OneRow)
        → IsPermutation rows sorted → IsSorted row_cmp sorted → sorted ≡ ascending row_less rows }
{}

/// A sort of texts by their bytes gives the ascending list.
pub fn sorted_texts_ascend()
    ensures { (texts sorted : List (List ℕ))
        → IsPermutation texts sorted → IsSorted (slice_cmp nat_cmp) sorted
        → sorted ≡ ascending (λ a b. is_lt (slice_cmp nat_cmp a b)) texts }
{}
