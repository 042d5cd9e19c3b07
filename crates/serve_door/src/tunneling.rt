//! Tunnels are served one after another.
ghost use Rattle.std.specs.Prelude.{◌≡◌, ◌≤◌, OnErr, OnOk, IsErrOf};
ghost use Rattle.host_base.specs.Outside.{Rose};
ghost use Rattle.serve_door.specs.Connections.{IsTunneled, ServesMany};
ghost use Rattle.serve_door.specs.Doors.{HasGivenAll, IsInOrder, IsWithinPlan, Tunnel as TheTunnel, Tunneled, given_back, one_given};

use crate::entrance::NoneCame;
use crate::hall_door::HallDoor;
use crate::serving::Stop;
use grain_supervise::Link;
use hub_core::Desk;
use std::alloc::Global;
use std::sync::Wait;
use tunnel_serve::serve_tunnel;

// Serves the next tunnel, over a link of its own.
fn serve_next<E: HallDoor, D: Desk>(
    alloc: Global,
    halls: &mut E,
    desk: &mut D,
    link: &E::Link,
) -> Result<(), Stop>
    requires { IsInOrder (E.doorway halls.old) }
    ensures serves { OnOk result ((one : TheTunnel)
        × IsTunneled (D.book desk.old) (D.book desk.new) one
        × (E.doorway halls.new ≡ given_back (one_given (E.doorway halls.old)) (Tunneled one))) }
    ensures within { IsWithinPlan (E.doorway halls.old) → IsWithinPlan (E.doorway halls.new) }
    ensures begins { (D.book desk.new).start ≡ (D.book desk.old).start }
    ensures unserved { OnErr result (desk.new ≡ desk.old) }
    ensures ungiven { OnErr result (E.doorway halls.new
        ≡ record (E.doorway halls.old) { faults = (E.doorway halls.new).faults }) }
    ensures counts { (E.doorway halls.old).faults ≤ (E.doorway halls.new).faults }
    ensures all { IsErrOf result Stop.All → HasGivenAll (E.doorway halls.new) }
    ensures cause { IsErrOf result Stop.DoorFailed
        → Rose (E.doorway halls.old).faults (E.doorway halls.new).faults }
{
    let Ok(mut link) = link.another(alloc) else {
        return Err(Stop::Memory);
    };
    match halls.accept() {
        Ok(mut hall) => {
            let end = serve_tunnel(alloc, &mut hall, desk, &mut link);
            halls.done(hall, link, end, desk);
            Ok(())
        }
        Err(NoneCame::Ended) => Err(Stop::All),
        Err(NoneCame::Failed) => Err(Stop::DoorFailed),
    }
}

/// Serves the tunnels that come in, one after another, each over a link of its own, and gives each back: why no further one was
/// served. It waits by a handle as long as one is to come.
pub fn serve_tunnels<R: Wait, E: HallDoor, D: Desk>(
    rt: &R,
    alloc: Global,
    halls: &mut E,
    desk: &mut D,
    link: &E::Link,
) -> Stop
    requires { IsInOrder (E.doorway halls.old) }
    ensures served { ServesMany (D.book desk.old) (D.book desk.new) (E.doorway halls.old)
        (E.doorway halls.new) 0 }
    ensures within { IsWithinPlan (E.doorway halls.old) → IsWithinPlan (E.doorway halls.new) }
    ensures begins { (D.book desk.new).start ≡ (D.book desk.old).start }
    ensures all { result ≡ Stop.All → HasGivenAll (E.doorway halls.new) }
    ensures counts { (E.doorway halls.old).faults ≤ (E.doorway halls.new).faults }
    ensures cause { result ≡ Stop.DoorFailed
        → Rose (E.doorway halls.old).faults (E.doorway halls.new).faults }
{
    'tunnels: for _ in rt.forever() {
        match serve_next(alloc, halls, desk, link) {
            Ok(()) => {}
            Err(stop) => return stop,
        }
    }
    unreachable!()
}
