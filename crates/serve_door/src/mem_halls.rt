//! A list of tunnels in memory.

ghost use Rattle.std.specs.Prelude.{◌≡◌, ◌+◌, ◌-◌, ◌++◌, ◌<◌, ◌≤◌, min, [], ◌∷◌, All, length, IfOk, IsErrOf};
ghost use Rattle.host_base.specs.CallCounts.{next_count};
ghost use Rattle.serve_door.specs.Doors.{IsFreshList, IsOneOut, mem_hallway, tunnel};

use crate::entrance::{Entrance, NoneCame};
use crate::hall_door::HallDoor;
use crate::tunnel::Tunnel;
use grain_supervise::Link;
use host_base::Memory;
use hub_core::Desk;
use std::alloc::Global;
use std::marker::Model;
use std::vec::IntoIter;
use tunnel_serve::TunnelEnd;
use ws_tunnel::{MemMessages, Messages};

/// A list of tunnels in memory, which it gives in order, as many as it is to give. Where none is left each further one is a fault. It
/// keeps those that it is given back.
#[derive(Drop)]
pub struct MemHalls<L: Link> {
    left: IntoIter<MemMessages>,
    due: u32,
    given: usize,
    faults: u64,
    kept: Vec<Tunnel<MemMessages, L>>,
}

impl<L: Link> Model for MemHalls<L> {
    ghost use Rattle.std.specs.Prelude.{◌+◌, ◌<◌, ◌≤◌, ◌^◌, All, length, vec_capacity};
    ghost use Rattle.std.specs.Vec.Iter.{into_iter_items, into_iter_len};
    ghost use Rattle.serve_door.specs.Doors.{IsFreshList, MemHallway};

    ghost Value = { MemHallway };

    ghost view = { λ s. record { left = into_iter_items s.left; due = s.due; given = s.given; faults = s.faults; kept = s.kept.items } };

    ghost invariant = { λ s. (s.given + into_iter_len s.left < 2 ^ 64) × (s.given + into_iter_len s.left ≤ vec_capacity s.kept) × (length s.kept.items ≤ s.given) × All IsFreshList (into_iter_items s.left) };
}

impl<L: Link> MemHalls<L> {
    /// Halls of these tunnels, of whose messages none was taken and none was put. They have room to keep them all once they are given
    /// back, and are to give none yet.
    pub fn new(alloc: Global, tunnels: Vec<MemMessages>) -> Result<Self, Memory>
        requires { All IsFreshList tunnels.items }
        ensures { IfOk result (λ halls. halls
            ≡ record { left = tunnels.items; due = 0; given = 0; faults = 0; kept = [] }) }
    {
        let kept = Vec::with_capacity(alloc, tunnels.len())?;
        Ok(MemHalls {
            left: tunnels.into_iter(),
            due: 0,
            given: 0,
            faults: 0,
            kept,
        })
    }

    /// How many faults there were.
    pub fn faults(&self) -> u64
        ensures { result ≡ self.now.faults }
    {
        self.faults
    }

    /// The tunnels that they were given back, in order.
    pub fn kept(&self) -> &[Tunnel<MemMessages, L>]
        ensures { result.now ≡ self.now.kept }
    {
        &self.kept
    }
}

impl<L: Link + Drop> Entrance for MemHalls<L> {
    type Link = L;

    ghost doorway = { mem_hallway };

    fn expect(&mut self, count: u32)
        ensures { self.new ≡ record self.old { due = count } }
    {
        self.due = count;
    }

    fn another(&self, alloc: Global) -> Result<Self, Memory>
        ensures { IfOk result (λ door. door
            ≡ record { left = []; due = 0; given = 0; faults = 0; kept = [] }) }
    {
        MemHalls::new(alloc, Vec::new(alloc))
    }

    fn take_back(&mut self, handle: Self)
        ensures { self.new ≡ record self.old {
          faults = min (self.old.faults + handle.faults) 18446744073709551615;
        } }
    {
        self.faults = self.faults.saturating_add(handle.faults);
    }
}

impl<L: Link + Drop> HallDoor for MemHalls<L> {
    type Hall = MemMessages;

    fn accept(&mut self) -> Result<MemMessages, NoneCame>
        // They give the first tunnel that is left, ends where they are to give none, and fail where none is left, which counts
        // one fault.
        ensures gives { IfOk result (λ hall. (self.old.left ≡ hall ∷ self.new.left) × (0 < self.old.due)
            × (self.new ≡ record self.old {
              left = self.new.left;
              due = self.old.due - 1;
              given = self.old.given + 1;
            })) }
        ensures fresh { IfOk result IsFreshList }
        ensures ends { IsErrOf result NoneCame.Ended → (self.old.due ≡ 0) × (self.new ≡ self.old) }
        ensures past { IsErrOf result NoneCame.Failed → (self.old.left ≡ [])
            × (self.new ≡ record self.old { faults = next_count self.old.faults }) }
        ensures counts { self.old.faults ≤ self.new.faults }
    {
        if self.due == 0 {
            return Err(NoneCame::Ended);
        }
        match self.left.next() {
            Some(tunnel) => {
                self.due -= 1;
                self.given += 1;
                Ok(tunnel)
            }
            None => {
                self.faults = self.faults.saturating_add(1);
                Err(NoneCame::Failed)
            }
        }
    }

    fn done<D: Desk>(&mut self, hall: MemMessages, link: L, end: TunnelEnd, desk: &D)
        requires out { IsOneOut (mem_hallway self.old) }

        // They keep the tunnel.
        ensures keeps { self.new ≡ record self.old {
          kept = self.old.kept ++ tunnel (⟦<MemMessages as Messages>⟧.hall hall) (L.line link) end ∷ [];
        } }
    {
        let _ = desk;
        self.kept.push_reserved(Tunnel { hall, link, end });
    }
}
