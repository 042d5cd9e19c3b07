//! The desk of accounts and their logins, applications and grains: what becomes of a command on them.
#![tactic(auto)]

mod accounts;
mod admins;
mod apps;
mod grains;
mod logins;
mod upgrades;

pub use accounts::add_account;
pub use admins::{set_admin, set_enabled};
pub use apps::add_app;
pub use grains::{new_grain, trash, untrash};
pub use logins::renew_login;
pub use upgrades::upgrade_app;
