//! A book under a lock, whose history many threads know through one word, and what each of them remembers of it.
#![tactic(auto)]

mod accepted;
mod book;
mod fault_counts;
mod hub;
mod kept;
mod pass;
mod seat;
mod vault;
mod word;

pub use accepted::{PARTS, PASS_LIMIT};
pub use book::{Book, Faults, Named};
pub use fault_counts::FaultCounts;
pub use hub::{Hub, Maker};
pub use kept::Kept;
pub use pass::{Note, Pass};
pub use seat::{Placed, Unnamed};
