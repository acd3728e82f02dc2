//! The JSON of the head and of the rows.
//!
//! The contract of `change_object` states that it returns an object of JSON (specs/ChangeObjects).
//! The texts of heads and rows have no such contract; they are tested.
mod change_objects;
mod changes;
mod deltas;
mod heads;
mod keys;
mod rows;

pub use change_objects::change_object;
pub(crate) use heads::head_json;
pub(crate) use rows::{RowJson, output_json, row_json};
