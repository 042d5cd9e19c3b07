//! Orders: what the machine makes of a command, and what may be answered to it.
#![tactic(auto)]

mod deciding;
mod order;
mod questions;
mod reply;
mod secrets;
mod sites;

pub use deciding::{Decision, decide};
pub use order::{Command, Order};
pub use questions::{listing_of, lists};
pub use reply::{Listing, OrderFault, Reply};
pub use secrets::{SecretUse, draws, secret_text, secret_use, shown_text};
pub use sites::found_of;
