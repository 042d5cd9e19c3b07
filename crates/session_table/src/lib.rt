//! The verdict on a key: where its requests go, or the first step that is missing.
#![tactic(auto)]

mod judging;
mod names;
mod permits;
mod reaching;
mod showing;

pub use judging::verdict;
pub use names::names_of;
