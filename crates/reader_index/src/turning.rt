ghost use Rattle.std.specs.Prelude.{◌≡◌, ◌+◌, ◌<◌, ◌≤◌, ◌^◌, ℕ, nat_eq, length, get_or, count_by, All, IfOk};
ghost use Rattle.reader_index.specs.Links.{chain_at};

use crate::Read;
use row_core::NoMemory;
use std::alloc::Global;

/// Takes one from the count of each reader in the chain that begins at a read, as often as it
/// stands there.
pub fn lower(counts: &mut Vec<usize>, reads: &[Read], earlier: &[usize], first: usize)
    requires len { length earlier.now ≡ length reads.now }
    requires inside { All (λ read. read.reader < length counts.old.items) reads.now }
    requires back { (k : ℕ) → get_or earlier.now k 0 ≤ k }
    requires first { first ≤ length reads.now }
    requires enough { (n : ℕ)
        → count_by (nat_eq n) (chain_at reads.now earlier.now first) ≤ get_or counts.old.items n 0 }
    ensures len { length counts.new.items ≡ length counts.old.items }
    ensures lowered { (n : ℕ)
        → get_or counts.new.items n 0 + count_by (nat_eq n) (chain_at reads.now earlier.now first)
        ≡ get_or counts.old.items n 0 }
{
    let mut at = first;
    while at > 0 {
        let reader = reads[at - 1].reader;
        counts[reader] -= 1;
        at = earlier[at - 1];
    }
}

/// Adds one to the count of each reader in the chain that begins at a read, as often as it stands
/// there.
pub fn raise(counts: &mut Vec<usize>, reads: &[Read], earlier: &[usize], first: usize)
    requires len { length earlier.now ≡ length reads.now }
    requires inside { All (λ read. read.reader < length counts.old.items) reads.now }
    requires back { (k : ℕ) → get_or earlier.now k 0 ≤ k }
    requires first { first ≤ length reads.now }
    requires few { (n : ℕ)
        → get_or counts.old.items n 0 + count_by (nat_eq n) (chain_at reads.now earlier.now first)
        < 2 ^ 64 }
    ensures len { length counts.new.items ≡ length counts.old.items }
    ensures raised { (n : ℕ) → get_or counts.new.items n 0
        ≡ get_or counts.old.items n 0 + count_by (nat_eq n) (chain_at reads.now earlier.now first) }
{
    let mut at = first;
    while at > 0 {
        let reader = reads[at - 1].reader;
        counts[reader] += 1;
        at = earlier[at - 1];
    }
}

/// The readers in the chain that begins at a read.
pub fn collect(
    alloc: Global,
    reads: &[Read],
    earlier: &[usize],
    first: usize,
) -> Result<Vec<usize>, NoMemory>
    requires len { length earlier.now ≡ length reads.now }
    requires back { (k : ℕ) → get_or earlier.now k 0 ≤ k }
    requires first { first ≤ length reads.now }
    ensures { IfOk result (λ readers. readers.items ≡ chain_at reads.now earlier.now first) }
{
    let mut readers = Vec::new(alloc);
    let mut at = first;
    while at > 0 {
        readers.push(reads[at - 1].reader)?;
        at = earlier[at - 1];
    }
    Ok(readers)
}
