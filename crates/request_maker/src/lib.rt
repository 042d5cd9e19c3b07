//! Makes the requests that `gen` serves: any number of them from a seed, always the same.
#![tactic(auto)]

mod forms;
mod kinds;
mod sequence;

pub use sequence::generate;
