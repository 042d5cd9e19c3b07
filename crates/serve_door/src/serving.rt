//! Connections are served one after another.
ghost use Rattle.std.specs.Prelude.{◌≡◌, ◌≤◌, IfOk, OnErr, IsErrOf};
ghost use Rattle.host_base.specs.Outside.{Rose};
ghost use Rattle.serve_door.specs.Connections.{IsServed, ServesMany};
ghost use Rattle.serve_door.specs.Doors.{Connected, Connection as TheConnection, HasGivenAll, IsInOrder, IsWithinPlan, given_back, one_given};

use crate::door::Door;
use crate::entrance::NoneCame;
use cloud_serve::{Wire, serve_conn};
use front_http::Routes;
use grain_supervise::Link;
use hub_core::Desk;
use std::alloc::Global;
use std::sync::Wait;

/// Why no further connection or tunnel was served.
#[derive(Clone, Copy, PartialEq, Eq)]
pub enum Stop {
    /// All that the door was to give were served.
    All,
    /// The door failed, which it counted.
    DoorFailed,
    /// Memory ran out between two of them.
    Memory,
}

/// Why no further connection or tunnel was served, and how many requests were answered on connections that were.
#[derive(Clone, Copy, PartialEq, Eq)]
pub struct Stopped {
    pub stop: Stop,
    pub answered: u64,
}

// Serves the next connection, over a link of its own: how many requests were answered on it.
fn serve_next<E: Door, D: Desk>(
    alloc: Global,
    routes: &Routes,
    door: &mut E,
    desk: &mut D,
    link: &E::Link,
) -> Result<u64, Stop>
    requires { IsInOrder (E.doorway door.old) }
    ensures serves { IfOk result (λ served. (one : TheConnection)
        × IsServed (D.book desk.old) (D.book desk.new) one × (one.end.served ≡ served)
        × (E.doorway door.new ≡ given_back (one_given (E.doorway door.old)) (Connected one))) }
    ensures within { IsWithinPlan (E.doorway door.old) → IsWithinPlan (E.doorway door.new) }
    ensures begins { (D.book desk.new).start ≡ (D.book desk.old).start }
    ensures unserved { OnErr result (desk.new ≡ desk.old) }
    ensures ungiven { OnErr result (E.doorway door.new
        ≡ record (E.doorway door.old) { faults = (E.doorway door.new).faults }) }
    ensures counts { (E.doorway door.old).faults ≤ (E.doorway door.new).faults }
    ensures all { IsErrOf result Stop.All → HasGivenAll (E.doorway door.new) }
    ensures cause { IsErrOf result Stop.DoorFailed
        → Rose (E.doorway door.old).faults (E.doorway door.new).faults }
{
    let Ok(link) = link.another(alloc) else {
        return Err(Stop::Memory);
    };
    match door.accept() {
        Ok((input, out)) => {
            let mut wire = Wire { input, out, link };
            let end = serve_conn(alloc, routes, &mut wire, desk);
            let served = end.served;
            let Wire { input, out, link } = wire;
            door.done(input, out, link, end, desk);
            Ok(served)
        }
        Err(NoneCame::Ended) => Err(Stop::All),
        Err(NoneCame::Failed) => Err(Stop::DoorFailed),
    }
}

/// Serves the connections that the door is to give, one after another, each over a link of its own, and gives each back to the
/// door. It waits by a handle as long as one is to come.
pub fn serve_all<R: Wait, E: Door, D: Desk>(
    rt: &R,
    alloc: Global,
    routes: &Routes,
    door: &mut E,
    desk: &mut D,
    link: &E::Link,
) -> Stopped
    requires { IsInOrder (E.doorway door.old) }
    ensures served { ServesMany (D.book desk.old) (D.book desk.new) (E.doorway door.old) (E.doorway door.new)
        result.answered }
    ensures within { IsWithinPlan (E.doorway door.old) → IsWithinPlan (E.doorway door.new) }
    ensures begins { (D.book desk.new).start ≡ (D.book desk.old).start }
    ensures all { result.stop ≡ Stop.All → HasGivenAll (E.doorway door.new) }
    ensures counts { (E.doorway door.old).faults ≤ (E.doorway door.new).faults }
    ensures cause { result.stop ≡ Stop.DoorFailed
        → Rose (E.doorway door.old).faults (E.doorway door.new).faults }
{
    let mut answered: u64 = 0;
    'connections: for _ in rt.forever() {
        match serve_next(alloc, routes, door, desk, link) {
            Ok(served) => answered = answered.saturating_add(served),
            Err(stop) => return Stopped { stop, answered },
        }
    }
    unreachable!()
}
