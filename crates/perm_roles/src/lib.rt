//! Permission sets, roles, and what an assignment of permissions gives.
#![tactic(auto)]

mod perm_set;
mod roles;

pub use perm_set::{PermSet, SetFault};
pub use roles::{Assignment, Base, Role, default_set, granted, is_listed};
