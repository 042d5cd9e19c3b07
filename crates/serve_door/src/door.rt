//! Where connections come in, and where they are given back.

ghost use Rattle.std.specs.Prelude.{◌≡◌, ◌≤◌, IfOk, IsErrOf, OnOk};
ghost use Rattle.host_base.specs.Outside.{Rose};
ghost use Rattle.hub_core.specs.Book.{Book};
ghost use Rattle.serve_door.specs.Connections.{IsServed};
ghost use Rattle.serve_door.specs.Doors.{Connected, HasGivenAll, IsDue, IsFreshInlet, IsFreshOutlet, IsOneOut, connection, given_back, one_given};

use crate::entrance::{Entrance, NoneCame};
use cloud_serve::ConnEnd;
use host_base::{Sink, Source};
use hub_core::Desk;

/// Where connections come in, and where each is given back once it was served.
pub trait Door: Entrance {
    /// What a connection is read from.
    type Input: Source + Drop;
    /// What is written to a connection.
    type Output: Sink + Drop;

    /// Takes the next connection, of which nothing was read and to which nothing was written.
    fn accept(&mut self) -> Result<(Self::Input, Self::Output), NoneCame>
        ensures due { OnOk result (IsDue (Self.doorway self.old)) }
        ensures given { OnOk result (Self.doorway self.new ≡ one_given (Self.doorway self.old)) }
        ensures input { IfOk result (λ pair. IsFreshInlet (Self.Input.inlet pair.0)) }
        ensures output { IfOk result (λ pair. IsFreshOutlet (Self.Output.outlet pair.1)) }
        ensures counts { (Self.doorway self.old).faults ≤ (Self.doorway self.new).faults }
        ensures ended { IsErrOf result NoneCame.Ended → HasGivenAll (Self.doorway self.old) }
        ensures ended_same { IsErrOf result NoneCame.Ended → Self.doorway self.new ≡ Self.doorway self.old }
        ensures failed { IsErrOf result NoneCame.Failed
            → Rose (Self.doorway self.old).faults (Self.doorway self.new).faults }
        ensures failed_same { IsErrOf result NoneCame.Failed
            → Self.doorway self.new
            ≡ record (Self.doorway self.old) { faults = (Self.doorway self.new).faults } };

    /// Takes a connection back that a desk served, with how it ended, once for each that it gave.
    fn done<D: Desk>(
        &mut self,
        input: Self::Input,
        output: Self::Output,
        link: Self::Link,
        end: ConnEnd,
        desk: &D,
    )
        requires out { IsOneOut (Self.doorway self.old) }
        requires served { (before : Book) × IsServed before (D.book desk.now)
            (connection (Self.Input.inlet input) (Self.Output.outlet output) (Self.Link.line link) end) }
        ensures { Self.doorway self.new ≡ given_back (Self.doorway self.old)
            (Connected (connection (Self.Input.inlet input) (Self.Output.outlet output) (Self.Link.line link) end)) };
}
