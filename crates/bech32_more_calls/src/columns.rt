//! Whole columns of texts: each row as by the call of `bech32_calls` for one.
//!
//! A column is laid out as Apache Arrow has it ([`Column`](column::Column)). A row that is bad has
//! its number, and ends nothing. What is put is an Arrow array: a number a row, offsets, and bytes
//! one behind another. Whatever the buffers of a column hold, nothing outside of them is read. No
//! function takes any memory, and none keeps anything, so that threads may share a column.

pub mod check;
pub mod column;
pub mod decode;
pub mod encode;
mod put;
pub mod validity;
