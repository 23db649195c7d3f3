//! Values and rows that are seen where they stand: in a record, in encoded bytes or in an
//! expression; and bytes that were checked once to be rows.
#![tactic(auto)]

mod bad_row;
mod encoded_cells;
mod encoded_rows;
mod evaluating;
mod hashing;
mod reading;
mod row_reader;
mod testing;
mod value_ref;
mod writing;

pub use bad_row::BadRow;
pub use encoded_cells::EncodedCells;
pub use encoded_rows::EncodedRows;
pub use evaluating::{Operand, evaluate};
pub use hashing::hash_at;
pub use reading::{check_rows, rows_stop_once};
pub use row_reader::RowReader;
pub use testing::holds_at;
pub use value_ref::ValueRef;
pub use writing::{put_row, put_value};
