ghost use Rattle.std.specs.Prelude.{◌≡◌, ◌<◌, ◌^◌, length, MatchOption, get_or};
ghost use Rattle.recover_core.specs.Differing.{ChangesAt, DiffersAt};

use estate::Sizes;
use graph_model::FileSizes;

/// The first place where bytes differ; the end of the shorter ones is one.
pub fn first_difference(old: &[u8], new: &[u8]) -> Option<usize>
    ensures { MatchOption result (old.now ≡ new.now) (λ at. DiffersAt old.now new.now at) }
{
    for at in 0..old.len() {
        if at == new.len() || old[at] != new[at] {
            return Some(at);
        }
    }
    if old.len() < new.len() {
        Some(old.len())
    } else {
        None
    }
}

// The first place where sizes differ; the end of the shorter ones is one.
fn first_size(old: &[u64], new: &[u64]) -> Option<usize>
    ensures { MatchOption result (old.now ≡ new.now) (λ at. DiffersAt old.now new.now at) }
{
    for at in 0..old.len() {
        if at == new.len() || old[at] != new[at] {
            return Some(at);
        }
    }
    if old.len() < new.len() {
        Some(old.len())
    } else {
        None
    }
}

/// The first table and file whose size differs. Both are sizes for the same tables.
pub fn first_change(old: &FileSizes, new: &FileSizes) -> Option<(usize, usize)>
    requires { length old.now ≡ length new.now }
    ensures { MatchOption result (old.now ≡ new.now)
        (λ (table, file). ChangesAt old.now new.now table file) }
{
    let old = old.as_slice();
    let new = new.as_slice();
    for table in 0..old.len() {
        if let Some(file) = first_size(old[table].as_slice(), new[table].as_slice()) {
            return Some((table, file));
        }
    }
    None
}
