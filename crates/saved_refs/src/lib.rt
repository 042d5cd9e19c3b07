//! The desk of the powerbox: what a user's grain may be given, and what a grain claims, saves and restores of that.
#![tactic(auto)]

mod choosing;
mod claiming;
mod listed;
mod offers;
mod options;
mod runs;
mod saving;

pub use claiming::claim;
pub use listed::Listed;
pub use offers::choose;
pub use options::{GrainChoices, grain_options};
pub use saving::{drop_saved, restore, save};
