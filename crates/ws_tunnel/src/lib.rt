//! The messages of a tunnel, which is one WebSocket that a client keeps open.
#![tactic(auto)]

mod mem_messages;
mod message;
mod messages;
mod ws_messages;

pub use mem_messages::MemMessages;
pub use message::Message;
pub use messages::{HallFault, Messages};
pub use ws_messages::{MESSAGE_READ, WsMessages};
