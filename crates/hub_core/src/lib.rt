//! The hub: one value that holds a history and what each node holds at its end, and answers keys and orders by that.
#![tactic(auto)]

mod answering;
mod desk;
mod held;
mod history;
mod locked;
mod solo;
mod telling;

pub use desk::Desk;
pub use desk_orders::{Command, Listing, Order, OrderFault, Reply};
pub use held::{Held, Holding};
pub use locked::Locked;
pub use solo::SoloDesk;
