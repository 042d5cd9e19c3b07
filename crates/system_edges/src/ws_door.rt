ghost use Rattle.std.specs.Prelude.{◌≡◌, None, IfOk, IfSome};
ghost use Rattle.serve_door.specs.Doors.{IsFreshHall};

use crate::activity::{Activity, SharedActivity};
use crate::client::SharedClient;
use crate::client_hall::ClientHall;
use crate::client_queue::ClientQueue;
use crate::lingering::close_slowly;
use crossbeam_channel::Receiver;
use grain_supervise::Link;
use host_base::Memory;
use hub_core::Desk;
use serve_door::{Entrance, HallDoor, NoneCame};
use std::alloc::Global;
use std::marker::{Model, PhantomData};
use std::sync::Wait;
use std::time::Clock;
use tungstenite::CloseCode;
use tunnel_serve::{HallEnd, TunnelEnd};

/// A door at the acceptor of a port at which tunnels come in: it answers the handshake of each client, and closes the tunnels that come
/// back. One whose handshake failed is a tunnel too, and its first message fails. Where the acceptor couldn't be made each call is a
/// fault. Its handles take tunnels at the same acceptor, as many as it is to give all together; where the server is to end they give no
/// more. It tells no tunnel.
#[derive(Drop)]
pub struct WsDoor<'a, R, L> {
    rt: &'a R,
    alloc: Global,
    queue: ClientQueue,
    over: PhantomData<L>,
}

impl<'a, R, L> Model for WsDoor<'a, R, L> {
    ghost use Rattle.std.specs.Prelude.{ℕ};

    ghost Value = { ℕ };

    ghost view = { λ s. s.queue };
}

// By which code a client is told how its tunnel ended. Where it was closed or failed that was told, or can't be.
fn code_of(end: HallEnd) -> CloseCode {
    match end {
        HallEnd::Refused(_) => CloseCode::Policy,
        HallEnd::Spent => CloseCode::Away,
        HallEnd::Memory => CloseCode::Error,
        HallEnd::Closed | HallEnd::ReadFault | HallEnd::WriteFault => CloseCode::Normal,
    }
}

// Counts a tunnel that ended, with its faults.
fn count_end(activity: &Activity, end: &TunnelEnd, faults: u64) {
    activity.tunnels.take_one();
    activity.tunneled.add_one();
    activity.passed.add(end.passed);
    match end.end {
        HallEnd::WriteFault => activity.output_faults.add(faults),
        _ => activity.input_faults.add(faults),
    }
}

impl<'a, R: Wait + Clock, L> WsDoor<'a, R, L> {
    /// A door at which the clients of an acceptor come in, which is to give no tunnel yet. It waits by a handle.
    pub fn new(
        rt: &'a R,
        alloc: Global,
        clients: Option<Receiver<SharedClient>>,
        activity: SharedActivity,
    ) -> Result<Self, Memory>
        ensures { IfOk result (λ door. door ≡ 0) }
    {
        Ok(WsDoor {
            rt,
            alloc,
            queue: ClientQueue::new(alloc, clients, activity)?,
            over: PhantomData,
        })
    }

    /// How many faults there were.
    pub fn faults(&self) -> u64
        ensures { result ≡ self.now }
    {
        self.queue.faults()
    }

    // The next tunnel, where the acceptor gives a client.
    fn next(&self) -> Option<ClientHall<'a, R>>
        ensures { IfSome result IsFreshHall }
    {
        let client = self.queue.next(self.rt)?;
        let activity = self.queue.share_activity().ok()?;
        ClientHall::accept(self.rt, self.alloc, client, activity).ok()
    }
}

impl<'a, R: Wait + Clock, L: Link + Drop> Entrance for WsDoor<'a, R, L> {
    type Link = L;

    ghost doorway = { λ faults. record { faults = faults; traffic = None } };

    fn expect(&mut self, count: u32) {
        self.queue.expect(count);
    }

    fn another(&self, alloc: Global) -> Result<Self, Memory> {
        Ok(WsDoor {
            rt: self.rt,
            alloc,
            queue: self.queue.another()?,
            over: PhantomData,
        })
    }

    fn take_back(&mut self, handle: Self) {
        let WsDoor {
            rt: _,
            alloc: _,
            queue,
            over: _,
        } = handle;
        self.queue.take_back(queue);
    }
}

impl<'a, R: Wait + Clock, L: Link + Drop> HallDoor for WsDoor<'a, R, L> {
    type Hall = ClientHall<'a, R>;

    fn accept(&mut self) -> Result<ClientHall<'a, R>, NoneCame> {
        if !self.queue.take_turn() {
            return Err(NoneCame::Ended);
        }
        match self.next() {
            Some(hall) => {
                self.queue.activity().tunnels.add_one();
                Ok(hall)
            }
            None => Err(self.queue.none_came()),
        }
    }

    fn done<D: Desk>(&mut self, hall: ClientHall<'a, R>, link: L, end: TunnelEnd, desk: &D) {
        let _ = (link, desk);
        count_end(self.queue.activity(), &end, hall.faults());
        let client = hall.close(code_of(end.end));
        close_slowly(self.rt, &client.stream);
    }
}
