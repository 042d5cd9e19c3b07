//! The clients of an acceptor, as the handles of a door take them.

ghost use Rattle.std.specs.Prelude.{◌≡◌, ◌≤◌, ◌+◌, min, IfOk};
ghost use Rattle.host_base.specs.Outside.{Rose};

use crate::activity::{Activity, SharedActivity};
use crate::client::SharedClient;
use crate::plan::Plan;
use crossbeam_channel::Receiver;
use host_base::Memory;
use serve_door::NoneCame;
use std::alloc::{AllocError, Global};
use std::marker::Model;
use std::sync::{Arc, Wait};

/// The clients of an acceptor, of which all handles together take as many as are to be given, and none once the server is to end. Where
/// the acceptor couldn't be made each further one is a fault.
#[derive(Drop)]
pub(crate) struct ClientQueue {
    clients: Option<Receiver<SharedClient>>,
    activity: SharedActivity,
    plan: Plan,
    faults: u64,
}

impl Model for ClientQueue {
    ghost use Rattle.std.specs.Prelude.{ℕ};

    ghost Value = { ℕ };

    ghost view = { λ s. s.faults };
}

impl ClientQueue {
    /// The clients of an acceptor, none of which is to be given yet.
    pub fn new(
        alloc: Global,
        clients: Option<Receiver<SharedClient>>,
        activity: SharedActivity,
    ) -> Result<Self, Memory>
        ensures { IfOk result (λ queue. queue ≡ 0) }
    {
        Ok(ClientQueue {
            clients,
            activity,
            plan: Plan::none(alloc)?,
            faults: 0,
        })
    }

    /// How many faults there were.
    pub fn faults(&self) -> u64
        ensures { result ≡ self.now }
    {
        self.faults
    }

    /// What the threads of the server share.
    pub fn activity(&self) -> &Activity {
        &self.activity
    }

    /// A handle of what they share.
    pub fn share_activity(&self) -> Result<SharedActivity, AllocError> {
        Arc::try_clone(&self.activity)
    }

    /// So many are to be given from now on.
    pub fn expect(&mut self, count: u32)
        ensures { self.new ≡ self.old }
    {
        self.plan.expect(count);
    }

    /// A further handle.
    pub fn another(&self) -> Result<Self, Memory>
        ensures { IfOk result (λ queue. queue ≡ 0) }
    {
        let clients = match &self.clients {
            Some(clients) => Some(clients.clone()?),
            None => None,
        };
        Ok(ClientQueue {
            clients,
            activity: Arc::try_clone(&self.activity)?,
            plan: self.plan.share()?,
            faults: 0,
        })
    }

    /// Takes such a handle back, with its faults.
    pub fn take_back(&mut self, handle: Self)
        ensures { self.new ≡ min (self.old + handle) 18446744073709551615 }
    {
        self.faults = self.faults.saturating_add(handle.faults);
    }

    /// Takes the right to give one more, where one is to be given and the server isn't to end.
    pub fn take_turn(&self) -> bool {
        !self.activity.is_ending() && self.plan.take()
    }

    /// The next client, for which it waits, where the acceptor gives one.
    pub fn next<R: Wait>(&self, rt: &R) -> Option<SharedClient> {
        let clients = self.clients.as_ref()?;
        let client = clients.recv(rt).ok()?;
        self.activity.waiting.take_one();
        Some(client)
    }

    /// Why none came: the server is to end, or there was a fault, which is counted.
    pub fn none_came(&mut self) -> NoneCame
        ensures counts { self.old ≤ self.new }
        ensures ended { result ≡ NoneCame.Ended → self.new ≡ self.old }
        ensures failed { result ≡ NoneCame.Failed → Rose self.old self.new }
    {
        if self.activity.is_ending() {
            return NoneCame::Ended;
        }
        self.faults = self.faults.saturating_add(1);
        NoneCame::Failed
    }
}
