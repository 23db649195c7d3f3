//! Names: of jobs, tables, columns and sinks.
ghost use Rattle.std.specs.Prelude.{◌≡◌, IfOk, IsTrue};
ghost use Rattle.std.specs.List.{list_all};
ghost use Rattle.serde_json.specs.Data.{string};
ghost use Rattle.serde_json.specs.View.{view};
ghost use Rattle.job_json.specs.Members.{is_name, is_name_byte, name_in};

use expr_json::write_text;
use row_core::{Bytes, NoMemory};
use serde_json::Value;
use std::alloc::Global;

/// The greatest length of a name, in bytes.
pub const NAME_LIMIT: usize = 64;

/// The name that a value is, if it is one.
#[tactic(auto, unfolding(crate::specs::Members::name_in))]
pub fn read_name(alloc: Global, value: &Value) -> Result<Option<Bytes>, NoMemory>
    ensures { IfOk result (λ name. name ≡ name_in (view value.now)) }
{
    match value.as_str() {
        Some(text) if matches_name(text.as_bytes()) => {
            Ok(Some(Bytes::from_slice(alloc, text.as_bytes())?))
        }
        _ => Ok(None),
    }
}

/// A name as a JSON value.
#[tactic(auto, using(crate::proofs::NameBytes::name_is_utf8))]
pub fn write_name(alloc: Global, name: &Bytes) -> Result<Value, NoMemory>
    requires { IsTrue (is_name name.now) }
    ensures { IfOk result (λ value. view value ≡ string name.now) }
{
    write_text(alloc, name.as_slice())
}

fn matches_name(name: &[u8]) -> bool
    ensures { result ≡ is_name name.now }
{
    !name.is_empty() && name.len() <= NAME_LIMIT && has_name_bytes(name)
}

fn has_name_bytes(text: &[u8]) -> bool
    ensures { result ≡ list_all is_name_byte text.now }
{
    text.iter().all(|b| matches_name_byte(*b))
}

fn matches_name_byte(byte: u8) -> bool
    ensures { result ≡ is_name_byte byte }
{
    matches!(byte, b'a'..=b'z' | b'0'..=b'9' | b'_')
}
