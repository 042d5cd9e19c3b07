//! The desk of shares: what becomes of a command on shares, links and tokens.
#![tactic(auto)]

mod giving;
mod redeeming;
mod revoking;
mod sharing;
mod tokens;

pub use redeeming::redeem;
pub use revoking::{may_revoke, revoke};
pub use sharing::share;
pub use tokens::{child, make_token};
