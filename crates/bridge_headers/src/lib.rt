//! What passes between a client and a grain: the text of a request as a grain gets it, and the relay of its answer.
#![tactic(auto)]

mod asked;
mod cookies;
mod fault;
mod framing;
mod head;
mod identity;
mod lines;
mod names;
mod relay;
mod stated;

pub use asked::grain_text;
pub use fault::RelayFault;
pub use identity::user_id;
pub use relay::answer_text;
