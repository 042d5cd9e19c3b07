ghost use Rattle.std.specs.Prelude.{◌≡◌, None, IfOk, IfSome};
ghost use Rattle.serve_door.specs.Doors.{IsFreshInlet, IsFreshOutlet};

use crate::activity::SharedActivity;
use crate::client::SharedClient;
use crate::client_queue::ClientQueue;
use crate::client_sink::ClientSink;
use crate::client_source::ClientSource;
use crate::lingering::close_slowly;
use cloud_serve::ConnEnd;
use crossbeam_channel::Receiver;
use grain_supervise::Link;
use host_base::Memory;
use hub_core::Desk;
use serve_door::{Door, Entrance, NoneCame};
use std::alloc::{AllocError, Global};
use std::marker::{Model, PhantomData};
use std::sync::{Arc, Wait};
use std::time::Clock;

/// A door at the acceptor of a port: it gives the connections whose first byte is there, and closes those that come back, once their
/// clients had time to read the last answer. Where the acceptor couldn't be made each call is a fault. Its handles take connections at
/// the same acceptor, as many as it is to give all together; where the server is to end they give no more. It tells no connection.
#[derive(Drop)]
pub struct TcpDoor<'a, R, L> {
    rt: &'a R,
    queue: ClientQueue,
    over: PhantomData<L>,
}

impl<'a, R, L> Model for TcpDoor<'a, R, L> {
    ghost use Rattle.std.specs.Prelude.{ℕ};

    ghost Value = { ℕ };

    ghost view = { λ s. s.queue };
}

impl<'a, R: Wait + Clock, L> TcpDoor<'a, R, L> {
    /// A door at which the clients of an acceptor come in, which is to give no connection yet. It waits by a handle.
    pub fn new(
        rt: &'a R,
        alloc: Global,
        clients: Option<Receiver<SharedClient>>,
        activity: SharedActivity,
    ) -> Result<Self, Memory>
        ensures { IfOk result (λ door. door ≡ 0) }
    {
        Ok(TcpDoor {
            rt,
            queue: ClientQueue::new(alloc, clients, activity)?,
            over: PhantomData,
        })
    }

    /// How many faults there were.
    pub fn faults(&self) -> u64
        ensures { result ≡ self.now }
    {
        self.queue.faults()
    }

    // What is read of a client and what is written to it.
    fn halves(
        &self,
        client: SharedClient,
    ) -> Result<(ClientSource<'a, R>, ClientSink<'a, R>), AllocError>
        ensures input { IfOk result (λ pair. IsFreshInlet pair.0) }
        ensures output { IfOk result (λ pair. IsFreshOutlet pair.1) }
    {
        let output = ClientSink::new(self.rt, Arc::try_clone(&client)?);
        let input = ClientSource::new(self.rt, client, self.queue.share_activity()?);
        Ok((input, output))
    }

    // The next connection, where the acceptor gives one.
    fn next(&self) -> Option<(ClientSource<'a, R>, ClientSink<'a, R>)>
        ensures { IfSome result (λ pair. (IsFreshInlet pair.0) × (IsFreshOutlet pair.1)) }
    {
        let client = self.queue.next(self.rt)?;
        self.halves(client).ok()
    }
}

impl<'a, R: Wait + Clock, L: Link + Drop> Entrance for TcpDoor<'a, R, L> {
    type Link = L;

    ghost doorway = { λ faults. record { faults = faults; traffic = None } };

    fn expect(&mut self, count: u32) {
        self.queue.expect(count);
    }

    fn another(&self, alloc: Global) -> Result<Self, Memory> {
        let _ = alloc;
        Ok(TcpDoor {
            rt: self.rt,
            queue: self.queue.another()?,
            over: PhantomData,
        })
    }

    fn take_back(&mut self, handle: Self) {
        let TcpDoor {
            rt: _,
            queue,
            over: _,
        } = handle;
        self.queue.take_back(queue);
    }
}

impl<'a, R: Wait + Clock, L: Link + Drop> Door for TcpDoor<'a, R, L> {
    type Input = ClientSource<'a, R>;

    type Output = ClientSink<'a, R>;

    fn accept(&mut self) -> Result<(ClientSource<'a, R>, ClientSink<'a, R>), NoneCame> {
        if !self.queue.take_turn() {
            return Err(NoneCame::Ended);
        }
        match self.next() {
            Some(pair) => {
                self.queue.activity().serving.add_one();
                Ok(pair)
            }
            None => Err(self.queue.none_came()),
        }
    }

    fn done<D: Desk>(
        &mut self,
        input: ClientSource<'a, R>,
        output: ClientSink<'a, R>,
        link: L,
        end: ConnEnd,
        desk: &D,
    ) {
        let _ = (link, desk);
        let activity = self.queue.activity();
        activity.serving.take_one();
        activity.served.add_one();
        activity.answered.add(end.served);
        activity.input_faults.add(input.faults());
        activity.output_faults.add(output.faults());
        if let Some(client) = input.into_unended() {
            close_slowly(self.rt, &client.stream);
        }
    }
}
