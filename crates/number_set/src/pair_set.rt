ghost use Rattle.std.specs.Prelude.{◌≡◌, ◌<◌, ◌++◌, ℕ, [], true, length, map, replicate, set, IfNone, IfOk, IfSome, OnErr, OnOk};
ghost use Rattle.number_set.specs.Members.{IsEmpty, members};
ghost use Rattle.number_set.specs.Pairs.{IsFirstPair, group_at, pair_of, pairs};

use crate::{NumberSet, Pair};
use row_core::NoMemory;
use std::alloc::Global;
use std::marker::Model;

/// A set of pairs: numbers of groups, each group with a bound of its own. Contracts see the marks
/// of each group's numbers.
#[derive(Debug, Drop)]
pub struct PairSet {
    groups: Vec<NumberSet>,
    filled: NumberSet,
}

impl Model for PairSet {
    ghost use Rattle.std.specs.Prelude.{List, Bool};
    ghost use Rattle.number_set.specs.Pairs.{TellsGroups};

    ghost Value = { List (List Bool) };

    ghost view = { λ pairs. pairs.groups.items };

    ghost invariant = { λ pairs. TellsGroups pairs.groups.items pairs.filled };
}

impl PairSet {
    /// So many groups, each of which has no number and the bound 0.
    pub fn new(alloc: Global, groups: usize) -> Result<Self, NoMemory>
        ensures { IfOk result (λ pairs. pairs ≡ replicate groups []) }
    {
        Ok(PairSet {
            groups: empty_groups(alloc, groups)?,
            filled: NumberSet::new(alloc, groups)?,
        })
    }

    /// Gives a group a bound, and all numbers below it.
    pub fn fill(&mut self, alloc: Global, group: usize, bound: usize) -> Result<(), NoMemory>
        requires { group < length self.old }
        ensures ok { OnOk result (self.new ≡ set self.old group (replicate bound true)) }
        ensures err { OnErr result (self.new ≡ self.old) }
    {
        let all = NumberSet::full(alloc, bound)?;
        self.put_group(group, all);
        Ok(())
    }

    /// Gives a group these numbers, and their bound. It takes no memory.
    pub fn put_group(&mut self, group: usize, numbers: NumberSet)
        requires { group < length self.old }
        ensures { self.new ≡ set self.old group numbers }
    {
        let filled = numbers.first().is_some();
        self.groups[group] = numbers;
        self.filled.set(group, filled);
    }

    /// Takes a number into its group, or out. It takes no memory.
    pub fn set(&mut self, group: usize, number: usize, inside: bool)
        requires group { group < length self.old }
        requires number { number < length (group_at self.old group) }
        ensures { self.new ≡ set self.old group (set (group_at self.old group) number inside) }
    {
        self.groups[group].set(number, inside);
        let filled = self.groups[group].first().is_some();
        self.filled.set(group, filled);
    }

    /// The first pair, by group and then by number. It takes as many steps as the bounds of the
    /// groups and of the numbers have binary digits.
    pub fn first(&self) -> Option<Pair>
        ensures some { IfSome result (IsFirstPair self.now) }
        ensures none { IfNone result ((g : ℕ) → IsEmpty (group_at self.now g)) }
    {
        let group = self.filled.first()?;
        let number = self.groups[group].first()?;
        Some(Pair { group, number })
    }

    /// All pairs, by group and then by number.
    pub fn pairs(&self, alloc: Global) -> Result<Vec<Pair>, NoMemory>
        ensures { IfOk result (λ found. found.items ≡ pairs self.now) }
    {
        let filled = self.filled.members(alloc)?;
        let mut found = Vec::new(alloc);
        for place in 0..filled.len() {
            let group = filled[place];
            push_pairs(alloc, group, &self.groups[group], &mut found)?;
        }
        Ok(found)
    }
}

fn empty_groups(alloc: Global, count: usize) -> Result<Vec<NumberSet>, NoMemory>
    ensures { IfOk result (λ groups. groups.items ≡ replicate count []) }
{
    let mut groups = Vec::new(alloc);
    for _ in 0..count {
        groups.push(NumberSet::new(alloc, 0)?)?;
    }
    Ok(groups)
}

fn push_pairs(
    alloc: Global,
    group: usize,
    numbers: &NumberSet,
    found: &mut Vec<Pair>,
) -> Result<(), NoMemory>
    ensures { OnOk result (found.new.items
        ≡ found.old.items ++ map (pair_of group) (members numbers.now)) }
{
    let members = numbers.members(alloc)?;
    for place in 0..members.len() {
        found.push(Pair {
            group,
            number: members[place],
        })?;
    }
    Ok(())
}
