//! The requests of a stream of bytes, their routes, and the texts of the server's own answers.
#![tactic(auto)]

mod fault;
mod fields;
mod find;
mod head;
mod held;
mod look;
mod number;
mod reader;
mod refusal;
mod route;
mod routes;
mod target;
mod texts;

pub use fault::FrontFault;
pub use number::path_number;
pub use reader::RequestReader;
pub use refusal::Refusal;
pub use route::Route;
pub use routes::Routes;
pub use target::use_target;
pub use texts::{lined_text, memory_reply, refusal_body, reply_text};
