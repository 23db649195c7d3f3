ghost use Rattle.std.specs.Prelude.{◌≡◌, ◌⊎◌, ◌+◌, ◌-◌, ◌*◌, ◌^◌, ◌<◌, ◌++◌, ◌∷◌, [], true, false, length, replicate, set, if◌then◌else◌, All, IfNone, IfOk, IfSome, OnOk};
ghost use Rattle.std.specs.List.{flat_map};
ghost use Rattle.number_set.specs.Levels.{AreLevels, has_below, level_at, marked_below};
ghost use Rattle.number_set.specs.Members.{IsEmpty, IsFirst, is_marked, members};

use crate::Marks;
use row_core::NoMemory;
use std::alloc::Global;

/// The levels over so many marks, each of them set or none.
pub fn new_levels(alloc: Global, count: usize, mark: bool) -> Result<Vec<Marks>, NoMemory>
    ensures levels { IfOk result (λ levels. AreLevels levels.items) }
    ensures marks { IfOk result (λ levels. level_at levels.items 0 ≡ replicate count mark) }
{
    let mut levels = Vec::new(alloc);
    levels.push(Marks::new(alloc, count, mark)?)?;
    let mut size = count;
    while size > 1 {
        size = size / 2 + size % 2;
        levels.push(Marks::new(alloc, size, mark)?)?;
    }
    Ok(levels)
}

/// Sets a mark, or takes it away, and what the levels above tell of it.
pub fn set_mark(levels: &mut Vec<Marks>, place: usize, mark: bool)
    requires levels { AreLevels levels.old.items }
    requires inside { place < length (level_at levels.old.items 0) }
    ensures levels { AreLevels levels.new.items }
    ensures marks { level_at levels.new.items 0 ≡ set (level_at levels.old.items 0) place mark }
{
    levels[0].set(place, mark);
    let mut at = place;
    for above in 1..levels.len() {
        renew(levels, above, at / 2);
        at /= 2;
    }
}

// A mark tells again of the two below.
fn renew(levels: &mut Vec<Marks>, above: usize, place: usize)
    requires level { above < length levels.old.items }
    requires some { 0 < above }
    requires inside { place < length (level_at levels.old.items above) }
    requires small { 2 * place + 1 < 2 ^ 64 }
    ensures { levels.new.items ≡ set levels.old.items above
        (set (level_at levels.old.items above) place
        (has_below (level_at levels.old.items (above - 1)) place)) }
{
    let below = &levels[above - 1];
    let mark = below.at(2 * place) || below.at(2 * place + 1);
    levels[above].set(place, mark);
}

/// The first mark that is set.
pub fn first_mark(levels: &[Marks]) -> Option<usize>
    requires { AreLevels levels.now }
    ensures some { IfSome result (IsFirst (level_at levels.now 0)) }
    ensures none { IfNone result (IsEmpty (level_at levels.now 0)) }
{
    let mut level = levels.len() - 1;
    if !levels[level].at(0) {
        return None;
    }
    let mut at = 0;
    while level > 0 {
        level -= 1;
        at = left_or_right(&levels[level], at);
    }
    Some(at)
}

// The first of the two marks below that is set, one of which is.
fn left_or_right(below: &Marks, place: usize) -> usize
    requires some { has_below below.now place ≡ true }
    requires small { 2 * place + 1 < 2 ^ 64 }
    ensures is { is_marked below.now result ≡ true }
    ensures cases { (result ≡ 2 * place) ⊎ ((result ≡ 2 * place + 1)
        × (is_marked below.now (2 * place) ≡ false)) }
{
    if below.at(2 * place) {
        2 * place
    } else {
        2 * place + 1
    }
}

/// The places of the marks that are set.
pub fn marked_places(alloc: Global, levels: &[Marks]) -> Result<Vec<usize>, NoMemory>
    requires { AreLevels levels.now }
    ensures { IfOk result (λ places. places.items ≡ members (level_at levels.now 0)) }
{
    let mut level = levels.len() - 1;
    let mut found = Vec::new(alloc);
    if levels[level].at(0) {
        found.push(0)?;
    }
    while level > 0 {
        level -= 1;
        found = spread(alloc, &levels[level], found.as_slice())?;
    }
    Ok(found)
}

// The marks that are set below these.
fn spread(alloc: Global, below: &Marks, above: &[usize]) -> Result<Vec<usize>, NoMemory>
    requires { All (λ place. 2 * place + 1 < 2 ^ 64) above.now }
    ensures { IfOk result (λ found. found.items ≡ flat_map (marked_below below.now) above.now) }
{
    let mut found = Vec::new(alloc);
    for place in 0..above.len() {
        push_marked(below, 2 * above[place], &mut found)?;
        push_marked(below, 2 * above[place] + 1, &mut found)?;
    }
    Ok(found)
}

fn push_marked(marks: &Marks, place: usize, found: &mut Vec<usize>) -> Result<(), NoMemory>
    ensures { OnOk result (found.new.items
        ≡ found.old.items ++ (if is_marked marks.now place then place ∷ [] else [])) }
{
    if marks.at(place) {
        found.push(place)?;
    }
    Ok(())
}
