//! Texts and lists that contracts see as plain data, a copy equal to what it is a copy of; and steps that are counted.
#![tactic(auto)]

mod list;
mod name;
mod steps;
mod text;

pub use list::List;
pub use name::{NAME_LIMIT, Name, is_plain};
pub use steps::Steps;
pub use text::Text;
