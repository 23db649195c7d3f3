use csv_tables::{SinkLines, read_table, sink_text};
use plan_model::{Kind, Kinds};
use row_core::{Bytes, NoMemory, Rows};
use std::alloc::Global;
use std::test::Fail;

// Columns of these kinds: `i` for an int, any other letter for a text.
fn columns(alloc: Global, letters: &str) -> Result<Kinds, NoMemory> {
    let mut kinds = Vec::new(alloc);
    for letter in letters.as_bytes() {
        kinds.push(if *letter == b'i' {
            Kind::IntKind
        } else {
            Kind::TextKind
        })?;
    }
    Ok(Kinds::from_vec(kinds))
}

// The kinds of a table's columns, its text, and the text of a sink of its rows.
const TABLES: &[(&str, &str, &str)] = &[
    (
        "iti",
        "1,\"a\nb\",5\n2,x\nz,y,7\n",
        ",y,7\n1,\"a\nb\",5\n2,x,\n",
    ),
    (
        "ti",
        "a,01\r\n\r\n\nb,-9223372036854775808\rc,9223372036854775808,4",
        "a,1\nb,-9223372036854775808\nc,\n",
    ),
    ("t", "\"say \"\"hi\"\"\"\n", "\"say \"\"hi\"\"\"\n"),
    ("t", "", ""),
];

fn rows_of(alloc: Global, letters: &str, text: &str) -> Result<Rows, NoMemory> {
    let bytes = Bytes::from_slice(alloc, text.as_bytes())?;
    read_table(alloc, &bytes, &columns(alloc, letters)?)
}

fn by_lines(alloc: Global, rows: &Rows) -> Result<Bytes, NoMemory> {
    SinkLines::new(alloc)
        .with_rows(rows)?
        .into_sorted_text(alloc)
}

// Whether each way of writing the rows gives this text.
fn is_written(alloc: Global, rows: &Rows, want: &str) -> Result<bool, NoMemory> {
    let text = sink_text(alloc, rows)?;
    let lines = by_lines(alloc, rows)?;
    let want = want.as_bytes();
    Ok(text.as_slice() == want && lines.as_slice() == want)
}

#[test]
fn tables_become_sorted_lines(rt: HostRuntime) -> Result<(), Fail> {
    for (letters, text, want) in TABLES {
        let rows = rows_of(rt.alloc(), letters, text)?;
        assert!(rt; is_written(rt.alloc(), &rows, want)?, "at {text}");
    }
    Ok(())
}
