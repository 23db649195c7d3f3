ghost use Rattle.std.specs.Prelude.{◌≡◌, ◌++◌, [], length, map, IfOk};
ghost use Rattle.std.specs.List.{flat_map};
ghost use Rattle.row_core.specs.Bags.{ascending};
ghost use Rattle.plan_model.specs.Sinks.{line_less, line_of};
ghost use Rattle.csv_tables.specs.Lines.{cut, total};

use crate::line::write_line;
use bag_laws::sorted_texts_ascend;
use csv::WriterBuilder;
use row_core::{Bytes, NoMemory, Row, Rows};
use std::alloc::{AllocError, Global};
use std::marker::Model;

/// The lines of rows that go to a sink, one after the other as they came.
#[derive(Drop)]
pub struct SinkLines {
    text: Vec<u8>,
    lengths: Vec<usize>,
}

impl Model for SinkLines {
    ghost use Rattle.std.specs.Prelude.{◌≡◌, ℕ, List, length};
    ghost use Rattle.csv_tables.specs.Lines.{cut, total};

    ghost Value = { List (List ℕ) };

    ghost view = { λ l. cut l.lengths.items l.text.items };

    ghost invariant = { λ l. total l.lengths.items ≡ length l.text.items };
}

impl SinkLines {
    /// No lines.
    pub fn new(alloc: Global) -> Self
        ensures { result ≡ [] }
    {
        SinkLines {
            text: Vec::new(alloc),
            lengths: Vec::new(alloc),
        }
    }

    /// The lines with those of further rows behind them, a line for each row, as docs/FORMATS.md
    /// says. Rows may differ in width.
    pub fn with_rows(self, rows: &Rows) -> Result<Self, NoMemory>
        ensures { IfOk result (λ lines. lines ≡ self ++ map line_of rows.now) }
    {
        let SinkLines { text, lengths } = self;
        write_lines(text, lengths, rows.as_slice())
    }

    /// The lines in ascending order of their bytes, one after the other.
    pub fn into_sorted_text(self, alloc: Global) -> Result<Bytes, NoMemory>
        ensures { IfOk result (λ text. text ≡ flat_map (λ line. line) (ascending line_less self)) }
    {
        let SinkLines { text, lengths } = self;
        let mut lines = slices(alloc, text.as_slice(), lengths)?;
        sort(&mut lines);
        joined(alloc, lines.as_slice(), text.len())
    }
}

// Writes the rows' lines behind the text, and notes their lengths. A flush after each row shows
// where its line ends.
fn write_lines(text: Vec<u8>, mut lengths: Vec<usize>, rows: &[Row]) -> Result<SinkLines, NoMemory>
    requires { total lengths.items ≡ length text.items }
    ensures { IfOk result (λ lines. lines ≡ cut lengths.items text.items ++ map line_of rows.now) }
{
    let mut start = text.len();
    let mut writer = WriterBuilder::new().flexible(true).from_writer(text);
    lengths.reserve(rows.len())?;
    for row in rows {
        write_line(&mut writer, row.as_slice())?;
        let end = writer.get_ref().len();
        lengths.push(end - start)?;
        start = end;
    }
    match writer.into_inner() {
        Ok(text) => Ok(SinkLines { text, lengths }),
        Err(_) => Err(AllocError),
    }
}

// The lines as parts of the text. The lengths' memory is given back at the end.
fn slices(alloc: Global, text: &[u8], lengths: Vec<usize>) -> Result<Vec<&[u8]>, NoMemory>
    requires { total lengths.items ≡ length text.now }
    ensures { IfOk result
        (λ lines. map (λ line. line.now) lines.items ≡ cut lengths.items text.now) }
{
    let mut lines = Vec::with_capacity(alloc, lengths.len())?;
    let mut rest = text;
    for size in &lengths {
        let (line, later) = rest.split_at(*size);
        lines.push(line)?;
        rest = later;
    }
    Ok(lines)
}

// Lines that tie are the same bytes, so the sort needn't be stable.
fn sort(lines: &mut Vec<&[u8]>)
    ensures { map (λ line. line.now) lines.new.items
        ≡ ascending line_less (map (λ line. line.now) lines.old.items) }
{
    sorted_texts_ascend();
    lines.sort_unstable_by(|a, b| a.cmp(b));
}

// The lines one after the other, in a text with room for this many bytes at first.
fn joined(alloc: Global, lines: &[&[u8]], room: usize) -> Result<Bytes, NoMemory>
    ensures { IfOk result
        (λ text. text ≡ flat_map (λ line. line) (map (λ line. line.now) lines.now)) }
{
    let mut text = Vec::with_capacity(alloc, room)?;
    for line in lines {
        text.extend_from_slice(line)?;
    }
    Ok(Bytes::from_vec(text))
}
