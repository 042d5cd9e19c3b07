//! The step of the machine: what an accepted command's event does to a state.
#![tactic(auto)]

mod applying;
mod preparing;
mod staged;

pub use applying::{apply, copy_of_event};
pub use preparing::prepare;
pub use staged::{ROOT_SESSIONS, Staged};
