ghost use Rattle.std.specs.Prelude.{◌≡◌, ◌≤◌, ◌+◌, min, None, IfOk, IsErrOf, OnOk};
ghost use Rattle.host_base.specs.CallCounts.{next_count};
ghost use Rattle.serve_door.specs.Doors.{IsFreshInlet, IsFreshOutlet};

use crate::socket::remove_socket;
use cloud_serve::ConnEnd;
use grain_supervise::Link;
use host_base::{Memory, StdSink, StdSource};
use hub_core::Desk;
use serve_door::{Door, Entrance, NoneCame};
use std::alloc::Global;
use std::io;
use std::marker::{Model, PhantomData};
use std::net::Net;
use std::os::unix::net::{UnixListener, UnixStream};
use std::rt::Files;

/// A door on a socket file, which closes the connections that come back. Where it couldn't be bound each call is a fault. It tells
/// no connection.
#[derive(Drop)]
pub struct UnixDoor<L> {
    listener: Option<UnixListener>,
    due: u32,
    faults: u64,
    over: PhantomData<L>,
}

impl<L> Model for UnixDoor<L> {
    ghost use Rattle.std.specs.Prelude.{ℕ};

    ghost Value = { ℕ };

    ghost view = { λ s. s.faults };
}

impl<L> UnixDoor<L> {
    /// A door on a socket file at this path, which is to give no connection yet. A socket file that stands there is removed first.
    pub fn bind<R: Files + Net>(rt: &R, path: &str) -> Self
        ensures { result ≡ 0 }
    {
        remove_socket(rt, path);
        UnixDoor {
            listener: UnixListener::bind(rt, path).ok(),
            due: 0,
            faults: 0,
            over: PhantomData,
        }
    }

    /// How many faults there were.
    pub fn faults(&self) -> u64
        ensures { result ≡ self.now }
    {
        self.faults
    }
}

// The next connection, to read from and to write to.
fn next_streams(listener: &UnixListener) -> io::Result<(UnixStream, UnixStream)> {
    let (input, _) = listener.accept()?;
    let output = input.try_clone()?;
    Ok((input, output))
}

impl<L: Link + Drop> Entrance for UnixDoor<L> {
    type Link = L;

    ghost doorway = { λ faults. record { faults = faults; traffic = None } };

    fn expect(&mut self, count: u32)
        ensures { self.new ≡ self.old }
    {
        self.due = count;
    }

    fn another(&self, alloc: Global) -> Result<Self, Memory>
        // It gives none.
        ensures { IfOk result (λ door. door ≡ 0) }
    {
        let _ = alloc;
        Ok(UnixDoor {
            listener: None,
            due: 0,
            faults: 0,
            over: PhantomData,
        })
    }

    fn take_back(&mut self, handle: Self)
        ensures { self.new ≡ min (self.old + handle) 18446744073709551615 }
    {
        self.faults = self.faults.saturating_add(handle.faults);
    }
}

impl<L: Link + Drop> Door for UnixDoor<L> {
    type Input = StdSource<UnixStream>;

    type Output = StdSink<UnixStream>;

    fn accept(&mut self) -> Result<(StdSource<UnixStream>, StdSink<UnixStream>), NoneCame>
        ensures input { IfOk result (λ pair. IsFreshInlet pair.0) }
        ensures output { IfOk result (λ pair. IsFreshOutlet pair.1) }
        ensures same { OnOk result (self.new ≡ self.old) }
        ensures ended { IsErrOf result NoneCame.Ended → self.new ≡ self.old }
        ensures counted { IsErrOf result NoneCame.Failed → self.new ≡ next_count self.old }
        ensures counts { self.old ≤ self.new }
    {
        if self.due == 0 {
            return Err(NoneCame::Ended);
        }
        if let Some(listener) = &self.listener
            && let Ok((input, output)) = next_streams(listener)
        {
            self.due -= 1;
            return Ok((StdSource::new(input), StdSink::new(output)));
        }
        self.faults = self.faults.saturating_add(1);
        Err(NoneCame::Failed)
    }

    fn done<D: Desk>(
        &mut self,
        input: StdSource<UnixStream>,
        output: StdSink<UnixStream>,
        link: L,
        end: ConnEnd,
        desk: &D,
    )
        ensures { self.new ≡ self.old }
    {
        let _ = (input, output, link, end, desk);
    }
}
