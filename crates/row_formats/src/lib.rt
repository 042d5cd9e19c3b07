//! The formats of stored rows: one grammar, read and written, with the first fault at its place.
#![tactic(auto)]

mod fault;
mod reader;
mod writer;

pub use fault::{ReadError, RowFault};
pub use reader::Reader;
pub use writer::Writer;
