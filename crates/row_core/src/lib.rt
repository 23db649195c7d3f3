//! Values, rows and bytes, their order, their encoding and hash, and the expressions and tests over
//! a row.
#![tactic(auto)]

mod bytes;
mod cell_rows;
mod cmp;
mod columns;
mod cow_value;
mod decoding;
mod encoding;
mod evaluation;
mod expr;
mod hashing;
mod no_memory;
mod pred;
mod predicate;
mod row;
mod row_error;
mod rows;
mod truth;
mod value;

pub use bytes::Bytes;
pub use cell_rows::CellRows;
pub use cmp::Cmp;
pub use columns::Columns;
pub use decoding::{decode_rows, one_spelling, read_u16, read_u32, read_u64};
pub use encoding::{encode_row, texts_fit};
pub use evaluation::eval;
pub use expr::Expr;
pub use hashing::{HASH_START, hash_more, key_hash, one_hash};
pub use no_memory::NoMemory;
pub use pred::Pred;
pub use predicate::holds;
pub use row::{Row, cmp_rows};
pub use row_error::RowError;
pub use rows::Rows;
pub use truth::Truth;
pub use value::{TEXT_LIMIT, Value};
