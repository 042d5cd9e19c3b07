//! The tables of a server, its state, and the definitions of who holds what.
#![tactic(auto)]

mod asking;
mod clashing;
mod desk;
mod digests;
mod event;
mod facts;
mod fault;
mod finders;
mod given;
mod grants;
mod keyed;
mod keys;
mod known;
mod nodes;
mod refusal;
mod row_list;
mod rows;
mod sessions;
mod setters;
mod state;
mod ways;

pub use asking::{app_of, is_admin, is_bearer, is_enabled, is_kept, is_node, lasts, may_receive};
pub use clashing::clash;
pub use desk::{Caller, DeskFault, Made, Offer};
pub use digests::Digested;
pub use event::Event;
pub use facts::{Fact, Node};
pub use fault::{GraphFault, Kind};
pub use finders::{account, app, grain, grant, run, saved, session};
pub use given::{given_from, share_from};
pub use grants::{Giver, Grant, Need, Needs, Target};
pub use keys::{
    by_bearer_token, by_grant_token, by_handle, by_login, by_run_token, by_saved_token,
    by_session_key, handle, handle_before, handle_to, live_run, login_before, reference_before,
    token_before,
};
pub use known::{has_account, has_grain, has_grant, is_own_node};
pub use nodes::{node_of, source_of};
pub use refusal::Refusal;
pub use row_list::{Room, Rows};
pub use rows::{Account, App, Grain, Saved};
pub use sessions::{Handle, Root, Run, Session};
pub use state::{State, Tables, copy_of};
pub use ways::{Origin, origin_of, root_maker, shown_as};
