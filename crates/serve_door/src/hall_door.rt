//! Where tunnels come in, and where they are given back.

ghost use Rattle.std.specs.Prelude.{◌≡◌, ◌≤◌, IfOk, IsErrOf, OnOk};
ghost use Rattle.host_base.specs.Outside.{Rose};
ghost use Rattle.hub_core.specs.Book.{Book};
ghost use Rattle.serve_door.specs.Connections.{IsTunneled};
ghost use Rattle.serve_door.specs.Doors.{HasGivenAll, IsDue, IsFreshHall, IsOneOut, Tunneled, given_back, one_given, tunnel};

use crate::entrance::{Entrance, NoneCame};
use hub_core::Desk;
use tunnel_serve::TunnelEnd;
use ws_tunnel::Messages;

/// Where tunnels come in, and where each is given back once it was served.
pub trait HallDoor: Entrance {
    /// The messages of a tunnel.
    type Hall: Messages + Drop;

    /// Takes the next tunnel, of whose messages none was taken and none was put.
    fn accept(&mut self) -> Result<Self::Hall, NoneCame>
        ensures due { OnOk result (IsDue (Self.doorway self.old)) }
        ensures given { OnOk result (Self.doorway self.new ≡ one_given (Self.doorway self.old)) }
        ensures hall { IfOk result (λ hall. IsFreshHall (Self.Hall.hall hall)) }
        ensures counts { (Self.doorway self.old).faults ≤ (Self.doorway self.new).faults }
        ensures ended { IsErrOf result NoneCame.Ended → HasGivenAll (Self.doorway self.old) }
        ensures ended_same { IsErrOf result NoneCame.Ended → Self.doorway self.new ≡ Self.doorway self.old }
        ensures failed { IsErrOf result NoneCame.Failed
            → Rose (Self.doorway self.old).faults (Self.doorway self.new).faults }
        ensures failed_same { IsErrOf result NoneCame.Failed
            → Self.doorway self.new
            ≡ record (Self.doorway self.old) { faults = (Self.doorway self.new).faults } };

    /// Takes a tunnel back that a desk served, with how it ended, once for each that it gave.
    fn done<D: Desk>(&mut self, hall: Self::Hall, link: Self::Link, end: TunnelEnd, desk: &D)
        requires out { IsOneOut (Self.doorway self.old) }
        requires served { (before : Book) × IsTunneled before (D.book desk.now)
            (tunnel (Self.Hall.hall hall) (Self.Link.line link) end) }
        ensures { Self.doorway self.new ≡ given_back (Self.doorway self.old)
            (Tunneled (tunnel (Self.Hall.hall hall) (Self.Link.line link) end)) };
}
