//! One tunnel: its messages, each decided anew and passed on to a grain, and how it ends.
#![tactic(auto)]

mod opening;
mod replies;
mod request;
mod tunnel;
mod tunnel_end;

pub use tunnel::{MESSAGE_LIMIT, serve_tunnel};
pub use tunnel_end::{HallEnd, TunnelEnd};
