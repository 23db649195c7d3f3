ghost use Rattle.std.specs.Prelude.{◌≡◌, ◌++◌, ◌+◌, ◌*◌, ◌<◌, ◌≤◌, ◌^◌, codes, IfOk, OnOk};
ghost use Rattle.std.specs.Fmt.{decimal};
ghost use Rattle.job_generator.specs.GeneratedTables.{order_line, city_line, order_lines, city_lines, order_file, order_files, generated_tables};

use estate::{Files, Table, Tables};
use itoa::Buffer;
use row_core::{Bytes, NoMemory};
use std::alloc::Global;

const ROWS_IN_A_FILE: u32 = 250;

/// The tables for this many orders.
pub fn generated_tables(alloc: Global, n: u32) -> Result<Tables, NoMemory>
    requires { n ≤ 100000 }
    ensures { IfOk result (λ tables. tables ≡ generated_tables n) }
{
    let cities = Files::from_vec(vec![in alloc; city_lines(alloc)?]?);
    Ok(Tables::from_vec(vec![in alloc;
        table(alloc, "orders", order_files(alloc, n)?)?,
        table(alloc, "cities", cities)?,
    ]?))
}

fn table(alloc: Global, name: &str, files: Files) -> Result<Table, NoMemory>
    ensures { IfOk result (λ table. table ≡ record { table = name.now; files = files }) }
{
    let table = Bytes::from_slice(alloc, name.as_bytes())?;
    Ok(Table { table, files })
}

#[tactic(auto, using(crate::proofs::Lines::files_last))]
fn order_files(alloc: Global, n: u32) -> Result<Files, NoMemory>
    requires { n ≤ 100000 }
    ensures { IfOk result (λ files. files ≡ order_files n) }
{
    let mut files = Files::new(alloc);
    for file in 0..n.div_ceil(ROWS_IN_A_FILE) {
        let first = ROWS_IN_A_FILE * file;
        let end = (first + ROWS_IN_A_FILE).min(n);
        files.push(order_lines(alloc, first, end)?)?;
    }
    Ok(files)
}

// The rows from one number up to another.
#[tactic(auto, using(crate::proofs::Lines::lines_last))]
fn order_lines(alloc: Global, first: u32, end: u32) -> Result<Bytes, NoMemory>
    requires order { first ≤ end }
    requires most { end ≤ 100000 }
    ensures { IfOk result (λ text. text ≡ order_lines first end) }
{
    let mut text = Bytes::new(alloc);
    for row in first..end {
        push_order(&mut text, row)?;
    }
    Ok(text)
}

fn push_order(text: &mut Bytes, row: u32) -> Result<(), NoMemory>
    requires { row < 100000 }
    ensures { OnOk result (text.new ≡ text.old ++ order_line row) }
{
    push_number(text, row)?;
    text.push(b',')?;
    push_number(text, 7 * row % 10)?;
    text.push(b',')?;
    push_number(text, (31 * row + 7) % 100)?;
    text.push(b'\n')
}

#[tactic(auto, using(crate::proofs::Lines::lines_next))]
fn city_lines(alloc: Global) -> Result<Bytes, NoMemory>
    ensures { IfOk result (λ text. text ≡ city_lines) }
{
    let mut text = Bytes::new(alloc);
    for city in 0..10 {
        push_city(&mut text, city)?;
    }
    Ok(text)
}

fn push_city(text: &mut Bytes, city: u32) -> Result<(), NoMemory>
    ensures { OnOk result (text.new ≡ text.old ++ city_line city) }
{
    push_number(text, city)?;
    text.extend(b",city")?;
    push_number(text, city)?;
    text.push(b'\n')
}

fn push_number(text: &mut Bytes, number: u32) -> Result<(), NoMemory>
    ensures { OnOk result (text.new ≡ text.old ++ decimal number) }
{
    let mut digits = Buffer::new();
    text.extend(digits.format(number).as_bytes())
}
