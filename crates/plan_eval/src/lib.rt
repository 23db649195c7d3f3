//! The plain evaluator: the text that a plan commits over given tables, node by node, each with all
//! its rows. docs/SEMANTICS.md says what each operator gives, docs/FORMATS.md how the text looks.
#![tactic(auto)]

mod answering;
mod evaluation;
mod files;
mod node_output;
mod operating;
mod source_rows;
mod table_files;
mod table_rows;
mod takers;

pub use answering::answer;
pub use files::Files;
pub use table_files::TableFiles;
pub use table_rows::TableRows;
