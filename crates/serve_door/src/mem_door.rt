//! A list of connections in memory.

ghost use Rattle.std.specs.Prelude.{◌≡◌, ◌+◌, ◌-◌, ◌++◌, ◌<◌, ◌≤◌, min, [], ◌∷◌, All, length, IfOk, IsErrOf};
ghost use Rattle.host_base.specs.CallCounts.{next_count};
ghost use Rattle.serve_door.specs.Doors.{IsFreshPair, IsOneOut, connection, mem_doorway};

use crate::connection::Connection;
use crate::door::Door;
use crate::entrance::{Entrance, NoneCame};
use cloud_serve::{ConnEnd, Wire};
use grain_supervise::Link;
use host_base::{MemSink, MemSource, Memory, Sink, Source};
use hub_core::Desk;
use std::alloc::Global;
use std::marker::Model;
use std::vec::IntoIter;

/// A list of connections in memory, which it gives in order, as many as it is to give. Where none is left each further one is
/// a fault. It keeps those that it is given back.
#[derive(Drop)]
pub struct MemDoor<L: Link> {
    left: IntoIter<(MemSource, MemSink)>,
    due: u32,
    given: usize,
    faults: u64,
    kept: Vec<Connection<MemSource, MemSink, L>>,
}

impl<L: Link> Model for MemDoor<L> {
    ghost use Rattle.std.specs.Prelude.{◌+◌, ◌<◌, ◌≤◌, ◌^◌, All, length, vec_capacity};
    ghost use Rattle.std.specs.Vec.Iter.{into_iter_items, into_iter_len};
    ghost use Rattle.serve_door.specs.Doors.{IsFreshPair, MemDoorway};

    ghost Value = { MemDoorway };

    ghost view = { λ s. record { left = into_iter_items s.left; due = s.due; given = s.given; faults = s.faults; kept = s.kept.items } };

    ghost invariant = { λ s. (s.given + into_iter_len s.left < 2 ^ 64) × (s.given + into_iter_len s.left ≤ vec_capacity s.kept) × (length s.kept.items ≤ s.given) × All IsFreshPair (into_iter_items s.left) };
}

impl<L: Link> MemDoor<L> {
    /// A door over these connections, of which nothing was read and to which nothing was written. It has room to keep them all
    /// once they are given back, and is to give none yet.
    pub fn new(alloc: Global, streams: Vec<(MemSource, MemSink)>) -> Result<Self, Memory>
        requires { All IsFreshPair streams.items }
        ensures { IfOk result (λ door. door
            ≡ record { left = streams.items; due = 0; given = 0; faults = 0; kept = [] }) }
    {
        let kept = Vec::with_capacity(alloc, streams.len())?;
        Ok(MemDoor {
            left: streams.into_iter(),
            due: 0,
            given: 0,
            faults: 0,
            kept,
        })
    }

    /// How many faults there were.
    pub fn faults(&self) -> u64
        ensures { result ≡ self.now.faults }
    {
        self.faults
    }

    /// The connections that it was given back, in order.
    pub fn kept(&self) -> &[Connection<MemSource, MemSink, L>]
        ensures { result.now ≡ self.now.kept }
    {
        &self.kept
    }
}

impl<L: Link + Drop> Entrance for MemDoor<L> {
    type Link = L;

    ghost doorway = { mem_doorway };

    fn expect(&mut self, count: u32)
        ensures { self.new ≡ record self.old { due = count } }
    {
        self.due = count;
    }

    fn another(&self, alloc: Global) -> Result<Self, Memory>
        ensures { IfOk result (λ door. door
            ≡ record { left = []; due = 0; given = 0; faults = 0; kept = [] }) }
    {
        MemDoor::new(alloc, Vec::new(alloc))
    }

    fn take_back(&mut self, handle: Self)
        ensures { self.new ≡ record self.old {
          faults = min (self.old.faults + handle.faults) 18446744073709551615;
        } }
    {
        self.faults = self.faults.saturating_add(handle.faults);
    }
}

impl<L: Link + Drop> Door for MemDoor<L> {
    type Input = MemSource;

    type Output = MemSink;

    fn accept(&mut self) -> Result<(MemSource, MemSink), NoneCame>
        // It gives the first connection that is left, ends where it is to give none, and fails where none is left, which counts
        // one fault.
        ensures gives { IfOk result (λ pair. (self.old.left ≡ pair ∷ self.new.left) × (0 < self.old.due)
            × (self.new ≡ record self.old {
              left = self.new.left;
              due = self.old.due - 1;
              given = self.old.given + 1;
            })) }
        ensures fresh { IfOk result IsFreshPair }
        ensures ends { IsErrOf result NoneCame.Ended → (self.old.due ≡ 0) × (self.new ≡ self.old) }
        ensures past { IsErrOf result NoneCame.Failed → (self.old.left ≡ [])
            × (self.new ≡ record self.old { faults = next_count self.old.faults }) }
        ensures counts { self.old.faults ≤ self.new.faults }
    {
        if self.due == 0 {
            return Err(NoneCame::Ended);
        }
        match self.left.next() {
            Some(connection) => {
                self.due -= 1;
                self.given += 1;
                Ok(connection)
            }
            None => {
                self.faults = self.faults.saturating_add(1);
                Err(NoneCame::Failed)
            }
        }
    }

    fn done<D: Desk>(&mut self, input: MemSource, output: MemSink, link: L, end: ConnEnd, desk: &D)
        requires out { IsOneOut (mem_doorway self.old) }

        // It keeps the connection.
        ensures keeps { self.new ≡ record self.old {
          kept = self.old.kept ++ connection (⟦<MemSource as Source>⟧.inlet input)
              (⟦<MemSink as Sink>⟧.outlet output) (L.line link) end ∷ [];
        } }
    {
        let _ = desk;
        let wire = Wire {
            input,
            out: output,
            link,
        };
        self.kept.push_reserved(Connection { wire, end });
    }
}
