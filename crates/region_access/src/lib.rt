//! The region of a change: finding it, making it ready to be solved again, and taking that back.
#![tactic(auto)]

mod adding;
mod adding_all;
mod anew;
mod arriving;
mod clearing;
mod dropping;
mod fed_grant;
mod grains_of;
mod index;
mod indexes;
mod indexing;
mod preparing;
mod pushing;
mod reaching;
mod room;
mod seeds;
mod tie;
mod tying;

pub use anew::solve_anew;
pub use arriving::{arrivals_of, collect};
pub use dropping::drop_empty;
pub use fed_grant::{NewGrant, new_grant};
pub use index::Ties;
pub use indexes::Indexes;
pub use indexing::edges_of;
pub use preparing::{prepare, take_back};
pub use reaching::{distinct, find_region};
pub use room::Room;
pub use seeds::seeds_of;
pub use tie::Tie;
pub use tying::{tied_by, ties_of};
