//! Collections: the members that are owed a share of a grain that a curator lists, and that share.
#![tactic(auto)]

mod collecting;
mod linking;
mod members;
mod planning;
mod sharing;

pub use collecting::collect;
pub use planning::missing;
