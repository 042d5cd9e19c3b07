//! The server's own answers: to denials, refusals and faults, to commands that are done, to the question what may be chosen, and of the
//! site's own capabilities.
#![tactic(auto)]

mod denials;
mod done;
mod faults;
mod framing;
mod options;
mod own;
mod refusals;
mod sites;

pub use denials::{denial_body, denial_reply};
pub use done::{Handed, done_reply};
pub use faults::{OwnFault, fault_reply};
pub use framing::{refused_reply, status_of_refusal};
pub use options::options_reply;
pub use own::{own_reply, wants_head};
pub use refusals::{command_body, command_reply};
pub use sites::site_reply;
