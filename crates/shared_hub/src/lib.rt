//! The hub that threads share: a history as the book of a hub, and the desk of one thread's pass.
#![tactic(auto)]

mod history;
mod pass_desk;

pub use history::{Outset, SharedHistory, Told, Wanted};
pub use pass_desk::PassDesk;
