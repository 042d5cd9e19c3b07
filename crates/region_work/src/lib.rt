//! Solving a cleared region again, in place.
#![tactic(auto)]

mod claim;
mod counted;
pub mod edges;
pub mod emptying;
mod gain;
pub mod meeting;
mod offering;
mod owning;
mod passing;
mod probe;
mod solving;
mod starting;
mod stepping;
mod trying;
mod waiting;

pub use claim::Claim;
pub use counted::Counted;
pub use gain::Gain;
pub use probe::Probe;
pub use solving::{grow_region, solve_region};
pub use waiting::Waiting;
