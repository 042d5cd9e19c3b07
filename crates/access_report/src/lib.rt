//! Who has access, why, and what a revocation would change.
#![tactic(auto)]

mod citing;
mod entry;
mod explaining;
mod feeding;
mod finding;
mod following;
mod joining;
mod lawful;
mod lifting;
mod listing;
mod loss;
mod needs;
mod placing;
mod previewing;
mod pruning;
mod queue;
mod resting;
mod sounding;
mod spreading;
mod step;
mod telling;
mod trace;

pub use entry::Entry;
pub use explaining::explain;
pub use listing::who;
pub use loss::Loss;
pub use previewing::preview;
pub use sounding::sound;
pub use step::Step;
