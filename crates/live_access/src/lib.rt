//! Who holds what, kept along the history of events.
#![tactic(auto)]

mod adding;
mod region;
mod solution;
mod staying;

pub use region::Region;
pub use solution::{Solution, solve};
