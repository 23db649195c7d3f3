ghost use Rattle.std.specs.Prelude.{◌≡◌, map, IfOk};
ghost use Rattle.std.specs.Fmt.{decimal};
ghost use Rattle.plan_text.specs.Lines.{ship_word, end_text, with_commas, input_text, output_text};

use plan_model::Ship;
use row_core::{Bytes, NoMemory};
use std::alloc::Global;
use vertex_builder::{VertexInput, VertexOutput};

/// The numbers of nodes, with commas between them.
pub fn nodes_text(alloc: Global, nodes: &[u32]) -> Result<Bytes, NoMemory>
    ensures { IfOk result (λ text. text ≡ with_commas (map decimal nodes.now)) }
{
    let mut texts = Vec::with_capacity(alloc, nodes.len())?;
    for node in nodes {
        texts.push(number_text(alloc, *node)?)?;
    }
    with_commas(alloc, texts.as_slice())
}

/// What comes in: producers, or a source's files.
pub fn inputs_text(alloc: Global, inputs: &[VertexInput]) -> Result<Bytes, NoMemory>
    ensures { IfOk result (λ text. text ≡ with_commas (map input_text inputs.now)) }
{
    let mut texts = Vec::with_capacity(alloc, inputs.len())?;
    for input in inputs {
        texts.push(input_text(alloc, input)?)?;
    }
    with_commas(alloc, texts.as_slice())
}

/// What goes out: to consumers, or as a sink's text.
pub fn outputs_text(alloc: Global, outputs: &[VertexOutput]) -> Result<Bytes, NoMemory>
    ensures { IfOk result (λ text. text ≡ with_commas (map output_text outputs.now)) }
{
    let mut texts = Vec::with_capacity(alloc, outputs.len())?;
    for output in outputs {
        texts.push(output_text(alloc, output)?)?;
    }
    with_commas(alloc, texts.as_slice())
}

fn input_text(alloc: Global, input: &VertexInput) -> Result<Bytes, NoMemory>
    ensures { IfOk result (λ text. text ≡ input_text input.now) }
{
    match input.from {
        Some(from) => end_text(alloc, from, &input.ship),
        None => Bytes::from_slice(alloc, b"files"),
    }
}

fn output_text(alloc: Global, output: &VertexOutput) -> Result<Bytes, NoMemory>
    ensures { IfOk result (λ text. text ≡ output_text output.now) }
{
    match output.into {
        Some(into) => end_text(alloc, into, &output.ship),
        None => Bytes::from_slice(alloc, b"sink"),
    }
}

// The node at the other end of an edge, and how rows go along it.
fn end_text(alloc: Global, node: u32, ship: &Ship) -> Result<Bytes, NoMemory>
    ensures { IfOk result (λ text. text ≡ end_text node ship.now) }
{
    let mut text = number_text(alloc, node)?;
    text.push(b':')?;
    text.extend(ship_word(ship))?;
    Ok(text)
}

fn ship_word(ship: &Ship) -> &'static [u8]
    ensures { result.now ≡ ship_word ship.now }
{
    match ship {
        Ship::Forward => b"forward",
        Ship::Hash(_) => b"hash",
        Ship::Rebalance => b"rebalance",
        Ship::Broadcast => b"broadcast",
    }
}

fn number_text(alloc: Global, number: u32) -> Result<Bytes, NoMemory>
    ensures { IfOk result (λ text. text ≡ decimal number) }
{
    let digits = number.to_string(alloc)?;
    Bytes::from_slice(alloc, digits.as_bytes())
}

fn with_commas(alloc: Global, texts: &[Bytes]) -> Result<Bytes, NoMemory>
    ensures { IfOk result (λ text. text ≡ with_commas texts.now) }
{
    let mut all = Bytes::new(alloc);
    for (place, text) in texts.iter().enumerate() {
        if place > 0 {
            all.push(b',')?;
        }
        all.extend(text.as_slice())?;
    }
    Ok(all)
}
