ghost use Rattle.std.specs.Prelude.{◌≡◌, ◌++◌, ◌↔◌, ℕ, List, sum_by};
ghost use Rattle.std.specs.List.{flat_map};
ghost use Rattle.row_core.specs.Bags.{SameBag};
ghost use Rattle.bag_laws.specs.Rows.{OneRow};

/// Bags are equal exactly where they weigh the same, whatever the rows weigh.
pub fn bags_weigh_alike()
    ensures { (rows others : List OneRow) → SameBag rows others
        ↔ ((weight : OneRow → ℕ) → sum_by weight rows ≡ sum_by weight others) }
{}

/// The sum of bags over the items of a list, as over the subtasks of a vertex: bag by bag, of two
/// bags for each item, of an operator row by row, and over a second list in either order.
pub fn sums_over<T, U>()
    ensures same { (f g : T → List OneRow) (items : List T)
        → ((item : T) → SameBag (f item) (g item))
        → SameBag (flat_map f items) (flat_map g items) }
    ensures both { (f g : T → List OneRow) (items : List T)
        → SameBag (flat_map (λ item. f item ++ g item) items)
        (flat_map f items ++ flat_map g items) }
    ensures rows { (f : T → List OneRow) (gives : OneRow → List OneRow) (items : List T)
        → SameBag (flat_map (λ item. flat_map gives (f item)) items)
        (flat_map gives (flat_map f items)) }
    ensures exchanged { (f : T → U → List OneRow) (items : List T) (others : List U)
        → SameBag (flat_map (λ item. flat_map (f item) others) items)
        (flat_map (λ other. flat_map (λ item. f item other) items) others) }
{}
