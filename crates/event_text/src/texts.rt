ghost use Rattle.std.specs.Prelude.{◌≡◌, ◌++◌, OnOk};
ghost use Rattle.std.specs.Fmt.{decimal};
ghost use Rattle.event_text.specs.Lines.{sub_text, name_text, behind_commas, with_commas};

use estate::PartName;
use graph_model::Sub;
use itoa::Buffer;
use row_core::{Bytes, NoMemory};

/// Adds a number's digits.
pub fn put_number(text: &mut Bytes, number: u128) -> Result<(), NoMemory>
    ensures { OnOk result (text.new ≡ text.old ++ decimal number) }
{
    let mut digits = Buffer::new();
    text.extend(digits.format(number).as_bytes())
}

/// Adds a label, and a number's digits.
pub fn put_labelled(text: &mut Bytes, label: &[u8], number: u128) -> Result<(), NoMemory>
    ensures { OnOk result (text.new ≡ text.old ++ (label.now ++ decimal number)) }
{
    text.extend(label)?;
    put_number(text, number)
}

/// Adds a part's four numbers.
pub fn put_name(text: &mut Bytes, name: PartName) -> Result<(), NoMemory>
    ensures { OnOk result (text.new ≡ text.old ++ name_text name) }
{
    put_number(text, u128::from(name.vertex))?;
    put_labelled(text, b".", u128::from(name.subtask))?;
    put_labelled(text, b".", u128::from(name.epoch))?;
    put_labelled(text, b".", u128::from(name.attempt))
}

/// Adds nodes, with commas between them.
pub fn put_nodes(text: &mut Bytes, nodes: &[u32]) -> Result<(), NoMemory>
    ensures { OnOk result (text.new ≡ text.old ++ with_commas decimal nodes.now) }
{
    match nodes {
        [] => Ok(()),
        [first, others @ ..] => {
            put_number(text, u128::from(*first))?;
            put_other_nodes(text, others)
        }
    }
}

fn put_other_nodes(text: &mut Bytes, nodes: &[u32]) -> Result<(), NoMemory>
    ensures { OnOk result (text.new ≡ text.old ++ behind_commas decimal nodes.now) }
{
    for node in nodes {
        put_labelled(text, b",", u128::from(*node))?;
    }
    Ok(())
}

/// Adds subtasks, with commas between them.
pub fn put_subs(text: &mut Bytes, subs: &[Sub]) -> Result<(), NoMemory>
    ensures { OnOk result (text.new ≡ text.old ++ with_commas sub_text subs.now) }
{
    match subs {
        [] => Ok(()),
        [first, others @ ..] => {
            put_sub(text, *first)?;
            put_other_subs(text, others)
        }
    }
}

fn put_other_subs(text: &mut Bytes, subs: &[Sub]) -> Result<(), NoMemory>
    ensures { OnOk result (text.new ≡ text.old ++ behind_commas sub_text subs.now) }
{
    for sub in subs {
        text.push(b',')?;
        put_sub(text, *sub)?;
    }
    Ok(())
}

fn put_sub(text: &mut Bytes, sub: Sub) -> Result<(), NoMemory>
    ensures { OnOk result (text.new ≡ text.old ++ sub_text sub) }
{
    put_number(text, u128::from(sub.vertex))?;
    put_labelled(text, b".", u128::from(sub.subtask))
}
