ghost use Rattle.std.specs.Prelude.{◌≡◌, ◌≤◌, ◌++◌, List, [], ◌∷◌, true, false, drop, Some, None, IfOk, OnOk, OnErr, IsErrOf, IsErr, slice_get};
ghost use Rattle.host_base.specs.Outside.{Rose};
ghost use Rattle.host_base.specs.CallCounts.{after_call, fails_next};
ghost use Rattle.ws_tunnel.specs.Hall.{GivesNext};
ghost use Rattle.ws_tunnel.specs.InMemory.{hall_of, is_at_end};

use crate::message::Message;
use crate::messages::{HallFault, Messages};
use host_base::{CallCount, Fails};
use plain_data::List as Row;
use std::alloc::{AllocError, Global};
use std::marker::Model;

/// A list of messages in memory, and those that were put. It fails exactly at the calls that were listed.
pub struct MemMessages {
    messages: Row<Message>,
    given: usize,
    put: Vec<Message>,
    count: CallCount,
}

// Written by hand: a proof then has one call wherever one is let go.
impl Drop for MemMessages {
    fn drop(self) {
        let MemMessages {
            messages: _,
            given: _,
            put: _,
            count: _,
        } = self;
    }
}

impl Model for MemMessages {
    ghost use Rattle.std.specs.Prelude.{drop, length, ◌≤◌};
    ghost use Rattle.ws_tunnel.specs.InMemory.{MemHall};

    ghost Value = { MemHall };

    ghost view = { λ s. record { whole = s.messages; left = drop s.given s.messages; put = s.put.items; count = s.count } };

    ghost invariant = { λ s. s.given ≤ length s.messages };
}

impl MemMessages {
    /// These messages are left, and none was put.
    pub fn new(alloc: Global, messages: Vec<Message>, fails: Fails) -> Self
        ensures { result ≡ record {
          whole = messages.items;
          left = messages.items;
          put = [];
          count = record { calls = 0; faults = 0; listed = fails };
        } }
    {
        MemMessages {
            messages: Row::new(messages),
            given: 0,
            put: Vec::new(alloc),
            count: CallCount::new(fails),
        }
    }

    /// The messages that are left, in order.
    pub fn left(&self) -> &[Message]
        ensures { result.now ≡ self.now.left }
    {
        &self.messages.as_slice()[self.given..]
    }

    /// The messages that were put, in order.
    pub fn kept(&self) -> &[Message]
        ensures { result.now ≡ self.now.put }
    {
        self.put.as_slice()
    }

    /// How many faults there were.
    pub fn faults(&self) -> u64
        ensures { result ≡ self.now.count.faults }
    {
        self.count.faults()
    }
}

// A copy of the first message, if there is one.
fn copy_of_first(left: &[Message]) -> Result<Option<Message>, AllocError>
    ensures { IfOk result (λ next. next ≡ slice_get left.now 0) }
{
    match left.first() {
        None => Ok(None),
        Some(message) => Ok(Some(message.clone()?)),
    }
}

impl Messages for MemMessages {
    ghost hall = { hall_of };

    fn next(&mut self, alloc: Global) -> Result<Option<Message>, HallFault>
        ensures counts { self.old.count.faults ≤ self.new.count.faults }
        ensures cause { IsErrOf result HallFault.Failed
            → Rose self.old.count.faults self.new.count.faults }

        // It gives the first message that is left, and fails exactly where the call is listed; want of memory leaves all as it was.
        ensures gives { IfOk result (λ next. (next ≡ slice_get self.old.left 0)
            × (self.new.left ≡ drop 1 self.old.left)) }
        ensures whole { self.new.whole ≡ self.old.whole }
        ensures put { self.new.put ≡ self.old.put }
        ensures kept { OnErr result (self.new.left ≡ self.old.left) }
        ensures listed { OnOk result (fails_next self.old.count ≡ false) }
        ensures failed { IsErrOf result HallFault.Failed → fails_next self.old.count ≡ true }
        ensures counted { OnOk result (self.new.count ≡ after_call self.old.count) }
        ensures counted_fault { IsErrOf result HallFault.Failed
            → self.new.count ≡ after_call self.old.count }
        ensures unchanged { IsErrOf result HallFault.Memory → self.new ≡ self.old }
    {
        let _ = alloc;
        let Ok(next) = copy_of_first(&self.messages.as_slice()[self.given..]) else {
            return Err(HallFault::Memory);
        };
        if self.count.next_fails() {
            return Err(HallFault::Failed);
        }
        match next {
            None => Ok(None),
            Some(message) => {
                self.given += 1;
                Ok(Some(message))
            }
        }
    }

    fn put(&mut self, alloc: Global, message: &Message) -> Result<(), HallFault>
        ensures counts { self.old.count.faults ≤ self.new.count.faults }
        ensures cause { IsErrOf result HallFault.Failed
            → Rose self.old.count.faults self.new.count.faults }

        // It keeps the message, and fails exactly where the call is listed; want of memory leaves all as it was.
        ensures puts { OnOk result (self.new.put ≡ self.old.put ++ message.now ∷ []) }
        ensures whole { self.new.whole ≡ self.old.whole }
        ensures left { self.new.left ≡ self.old.left }
        ensures unput { OnErr result (self.new.put ≡ self.old.put) }
        ensures listed { OnOk result (fails_next self.old.count ≡ false) }
        ensures failed { IsErrOf result HallFault.Failed → fails_next self.old.count ≡ true }
        ensures counted { OnOk result (self.new.count ≡ after_call self.old.count) }
        ensures counted_fault { IsErrOf result HallFault.Failed
            → self.new.count ≡ after_call self.old.count }
        ensures unchanged { IsErrOf result HallFault.Memory → self.new ≡ self.old }
    {
        let _ = alloc;
        let Ok(copy) = message.clone() else {
            return Err(HallFault::Memory);
        };
        if self.put.reserve(1).is_err() {
            return Err(HallFault::Memory);
        }
        if self.count.next_fails() {
            return Err(HallFault::Failed);
        }
        self.put.push_reserved(copy);
        Ok(())
    }
}
