//! The members of nodes that are words: a separator, the kind of a join, how rows are shipped.
ghost use Rattle.std.specs.Prelude.{◌≡◌, option_and_then};
ghost use Rattle.serde_json.specs.Find.{as_str};
ghost use Rattle.serde_json.specs.View.{view};
ghost use Rattle.job_json.specs.Faults.{Gives};
ghost use Rattle.job_json.specs.Parts.{ascii_in, separator_of, join_kind_named, join_kind_of, rebalance_in, ship_of};

use crate::json_shape::matches_text;
use crate::node_reader::NodeReader;
use crate::{JobError, JobFaultKind};
use plan_model::JoinKind;
use serde_json::Value;

/// A separator: a text of one ASCII character.
#[tactic(auto, unfolding(crate::specs::Parts::separator_of))]
pub fn read_separator(reader: NodeReader, node: &Value) -> Result<u8, JobError>
    ensures { Gives (λ x. x) result (separator_of reader.node (view node.now)) }
{
    let value = reader.member(node, "separator")?;
    match separator_in(value) {
        Some(separator) => Ok(separator),
        None => Err(reader.fault(JobFaultKind::BadMember, "separator")),
    }
}

/// The kind of a join.
#[tactic(auto, unfolding(crate::specs::Parts::join_kind_of))]
pub fn read_join_kind(reader: NodeReader, node: &Value) -> Result<JoinKind, JobError>
    ensures { Gives (λ x. x) result (join_kind_of reader.node (view node.now)) }
{
    let value = reader.member(node, "kind")?;
    match join_kind_in(value) {
        Some(kind) => Ok(kind),
        None => Err(reader.fault(JobFaultKind::BadMember, "kind")),
    }
}

/// Whether a node's rows are to be spread anew; not where `ship` is absent.
#[tactic(auto, unfolding(crate::specs::Parts::ship_of))]
pub fn read_ship(reader: NodeReader, node: &Value) -> Result<bool, JobError>
    ensures { Gives (λ x. x) result (ship_of reader.node (view node.now)) }
{
    let Some(value) = node.get("ship") else {
        return Ok(false);
    };
    match rebalance_in(value) {
        Some(rebalance) => Ok(rebalance),
        None => Err(reader.fault(JobFaultKind::BadMember, "ship")),
    }
}

fn separator_in(value: &Value) -> Option<u8>
    ensures { result ≡ option_and_then ascii_in (as_str (view value.now)) }
{
    let text = value.as_str()?.as_bytes();
    if text.len() == 1 && text[0] < 128 {
        return Some(text[0]);
    }
    None
}

fn join_kind_in(value: &Value) -> Option<JoinKind>
    ensures { result ≡ option_and_then join_kind_named (as_str (view value.now)) }
{
    join_kind_from(value.as_str()?)
}

#[tactic(auto, unfolding(crate::specs::Parts::join_kind_named))]
fn join_kind_from(word: &str) -> Option<JoinKind>
    ensures { result ≡ join_kind_named word.now }
{
    match word {
        "inner" => Some(JoinKind::Inner),
        "left" => Some(JoinKind::Left),
        "right" => Some(JoinKind::Right),
        "full" => Some(JoinKind::Full),
        "semi" => Some(JoinKind::Semi),
        "anti" => Some(JoinKind::Anti),
        _ => None,
    }
}

fn rebalance_in(value: &Value) -> Option<bool>
    ensures { result ≡ rebalance_in (view value.now) }
{
    if matches_text(value, "forward") {
        return Some(false);
    }
    if matches_text(value, "rebalance") {
        return Some(true);
    }
    None
}
