//! The rows of the tables as bytes: each row's fields, read and written.
#![tactic(auto)]

mod apps;
mod bodies;
mod fields;
mod grants;
mod rows;
mod values;

pub use bodies::{Stored, read_body, write_body};
pub use fields::{RowField, read_list, write_list, write_slice};
