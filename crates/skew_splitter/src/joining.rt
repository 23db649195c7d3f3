ghost use Rattle.std.specs.Prelude.{◌≡◌, ◌++◌, ◌∷◌, List, IfOk};
ghost use Rattle.rect_cover.specs.declared.rect.Rect.{Rect};
ghost use Rattle.skew_splitter.specs.Joined.{are_one, as_one, joined, joined_from, tidy};

use crate::Rule;
use rect_cover::{Rect, Rects};
use std::alloc::Global;
use volume_split::NoMemory;

// One rect for each column, and then one for columns of the same producers that lie side by side.
pub fn tidy(alloc: Global, rects: &[Rect]) -> Result<Rects, NoMemory>
    ensures { IfOk result (λ tidied. tidied ≡ tidy rects.now) }
{
    let columns = joined(alloc, Rule::OneColumn, rects)?;
    let all = joined(alloc, Rule::SideBySide, columns.as_slice())?;
    Ok(Rects::from_vec(all))
}

fn joined(alloc: Global, rule: Rule, rects: &[Rect]) -> Result<Vec<Rect>, NoMemory>
    ensures { IfOk result (λ all. all.items ≡ joined rule rects.now) }
{
    let [first, rest @ ..] = rects else {
        return Ok(Vec::new(alloc));
    };
    let mut all = Vec::new(alloc);
    let mut last = *first;
    for rect in rest {
        last = next(rule, &mut all, last, *rect)?;
    }
    all.push(last)?;
    Ok(all)
}

// The last rect after one more; the one before is pushed where it stays by itself.
fn next(rule: Rule, all: &mut Vec<Rect>, last: Rect, rect: Rect) -> Result<Rect, NoMemory>
    ensures { IfOk result (λ now. (rects : List Rect)
        → all.new.items ++ joined_from rule now rects
        ≡ all.old.items ++ joined_from rule last (rect ∷ rects)) }
{
    if are_one(rule, last, rect) {
        return Ok(as_one(last, rect));
    }
    all.push(last)?;
    Ok(rect)
}

fn are_one(rule: Rule, a: Rect, b: Rect) -> bool
    ensures { result ≡ are_one rule a b }
{
    match rule {
        Rule::OneColumn => a.s0 == b.s0,
        Rule::SideBySide => a.p0 == b.p0 && a.p1 == b.p1 && a.s1 == b.s0,
    }
}

fn as_one(a: Rect, b: Rect) -> Rect
    ensures { result ≡ as_one a b }
{
    Rect {
        p0: a.p0,
        p1: b.p1,
        s0: a.s0,
        s1: b.s1,
    }
}
