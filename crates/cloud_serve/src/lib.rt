//! One connection, from the bytes that come in to the bytes that go out.
#![tactic(auto)]

mod asking;
mod collecting;
mod commands;
mod ending;
mod listing;
mod passing;
mod powerbox;
mod serve;
mod sharing;
mod showing;
mod turn;
mod wire;

pub use serve::{ConnEnd, End, Places, REQUEST_LIMIT, serve_conn};
pub use sharing::{Collecting, SHARE_LIMIT, Stopped, collect_members};
pub use wire::Wire;
