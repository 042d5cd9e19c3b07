//! The edges to the system, which tell nothing of what passes through them: the acceptor of a port of this machine, and the doors
//! at it, of connections and of tunnels; the door on a Unix socket; what starts and stops the programs of grains, and the link to
//! them; secrets from the system's randomness; and its clock. A run's program listens at a socket `run-N.sock`, N its number, in one
//! folder, and what it prints is logged. What waits has a time limit (`limits`).
#![tactic(auto)]

mod acceptor;
mod activity;
mod child;
mod client;
mod client_hall;
mod client_queue;
mod client_sink;
mod client_source;
mod client_stream;
mod input_end;
mod limits;
mod lingering;
mod logs;
mod places;
mod plan;
mod proc_spawner;
mod rng_secrets;
mod socket;
mod system_clock;
mod tcp_door;
mod unix_door;
mod unix_link;
mod ws_door;

pub use acceptor::Acceptor;
pub use activity::{Activity, SharedActivity};
pub use client::{Client, SharedClient};
pub use client_hall::ClientHall;
pub use client_sink::ClientSink;
pub use client_source::ClientSource;
pub use client_stream::ClientStream;
pub use input_end::{is_pipe, wait_for_end};
pub use logs::{Logs, Output};
pub use places::Places;
pub use proc_spawner::{ProcSpawner, Starting};
pub use rng_secrets::RngSecrets;
pub use system_clock::SystemClock;
pub use tcp_door::TcpDoor;
pub use unix_door::UnixDoor;
pub use unix_link::UnixLink;
pub use ws_door::WsDoor;
