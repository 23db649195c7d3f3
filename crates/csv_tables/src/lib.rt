//! Tables as texts of comma-separated cells: reads a table's file as rows, or gives its rows to a
//! pipeline one after another, and writes a sink's rows as sorted lines. docs/FORMATS.md states both formats.
#![tactic(auto)]

mod cell;
mod line;
mod lines;
mod reading;
mod record;
mod scan;
mod sink;
mod table;

pub use lines::SinkLines;
pub use scan::scan_table;
pub use sink::sink_text;
pub use table::read_table;
