//! What a door to connections and one to tunnels have alike.

ghost use Rattle.std.specs.Prelude.{◌≡◌, IfOk};
ghost use Rattle.serve_door.specs.Doors.{Doorway, expecting, further, with_faults_of};

use grain_supervise::Link;
use host_base::Memory;
use std::alloc::Global;
use thiserror::Error;

/// Why nothing came in.
#[derive(Clone, Copy, Debug, PartialEq, Eq, Error)]
pub enum NoneCame {
    /// The door gave all that it was to give.
    #[error("no more connections are to come")]
    Ended,
    /// The door failed, which it counted.
    #[error("the door failed")]
    Failed,
}

/// Where connections or tunnels come in, at handles for workers. Each failure is counted. It may tell what was given back.
pub trait Entrance {
    /// What the requests of what comes in are forwarded over.
    type Link: Link + Drop;

    ghost doorway: { Self → Doorway };

    /// Says how many it is to give from now on.
    fn expect(&mut self, count: u32)
        ensures { doorway self.new ≡ expecting (doorway self.old) count };

    /// A further handle, for another worker: what all handles give is what the door is to give.
    fn another(&self, alloc: Global) -> Result<Self, Memory>
        ensures { IfOk result (λ handle. doorway handle ≡ further (doorway self.now)) };

    /// Takes such a handle back, with its faults.
    fn take_back(&mut self, handle: Self)
        ensures { doorway self.new ≡ with_faults_of (doorway self.old) (doorway handle) };
}
