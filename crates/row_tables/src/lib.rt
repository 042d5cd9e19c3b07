//! The rows of the tables: the tables that rows state, or the first bad row.
#![tactic(auto)]

mod checking;
mod events;
mod one_row;
mod sections;
mod stored;
mod tables;
mod writing;

pub use cloud_keeper::Row;
pub use events::row_after;
pub use one_row::row_bytes;
pub use stored::{BadRow, LoadFault};
pub use tables::tables_of;
pub use writing::rows_of;
