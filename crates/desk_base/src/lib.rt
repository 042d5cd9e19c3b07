//! What all desks share: how a command is defined, who calls, the rows that it names, limits, the grants that it adds, and how far it comes.
#![tactic(auto)]

mod callers;
mod expiry;
mod grants;
mod known;
mod limits;
mod made;
mod needs;
mod outcome;
mod roles;
mod stop;

pub use callers::{caller_account, caller_admin, caller_grant, caller_on, has_entry, secret_of};
pub use expiry::good_expiry;
pub use grants::{add_grant, all_access, draft_grant, new_grant};
pub use known::{known_account, known_app, known_grain, known_grant};
pub use limits::{has_grant_room, has_room, most_of};
pub use made::{BLANK, NOTHING, shown_grant};
pub use needs::{good_needs, set_fits};
pub use outcome::{Answer, Draft, Outcome};
pub use roles::given_role;
pub use stop::Stop;
