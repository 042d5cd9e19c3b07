//! What the program of a grain does: it answers each connection with the text that it was asked.
#![tactic(auto)]

mod answer;
mod grain;
mod lengths;
mod reading;

pub use answer::{Answered, answer_one};
pub use grain::{GrainEnd, run_grain};
