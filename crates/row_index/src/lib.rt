//! An index of rows by numbers that are worked out from their keys.
#![tactic(auto)]

mod candidates;
mod clues;
mod index;
mod marks;
mod ways;

pub use candidates::Candidates;
pub use clues::{Clues, Keyed, Standing, number_clue, text_clue};
pub use index::{Index, Slot};
pub use marks::Marks;
pub use ways::{Link, Way, Ways};
