//! Connections that are taken at a door, and tunnels that are taken at halls, served one after another, and given back.
#![tactic(auto)]

mod connection;
mod door;
mod entrance;
mod hall_door;
mod mem_door;
mod mem_halls;
mod post;
mod serving;
mod staff;
mod tunnel;
mod tunneling;
mod worker;

pub use connection::Connection;
pub use door::Door;
pub use entrance::{Entrance, NoneCame};
pub use hall_door::HallDoor;
pub use mem_door::MemDoor;
pub use mem_halls::MemHalls;
pub use post::Post;
pub use serving::{Stop, Stopped, serve_all};
pub use staff::{Staff, dismiss, hire};
pub use tunnel::Tunnel;
pub use tunneling::serve_tunnels;
pub use worker::Worker;
