ghost use Rattle.std.specs.Prelude.{◌≡◌, ◌⊎◌, ◌+◌, ◌≤◌, ℕ, None, false, IfOk, length};
ghost use Rattle.host_clock.specs.Ticking.{Ticks};
ghost use Rattle.hub_core.specs.Book.{GoesOn, Judged, Ordered, TakesNone, Ticked};
ghost use Rattle.hub_core.specs.Ticking.{added_by};
ghost use Rattle.tick_desk.specs.Clocked.{without, last_after, ticks_in, HasTicked, StaysTicked, CountsTicks, IsOnTime, KnowsLast, UnlessMemory};

use desk_orders::{Order, OrderFault, Reply};
use host_base::{Key, Memory, Verdict};
use host_clock::Clock;
use hub_core::Desk;
use site_caps::{SiteFault, SiteText};
use std::alloc::Global;
use std::marker::Model;

/// A tick that was answered: its moment, in seconds, and its place in the history.
#[derive(Clone, Copy, PartialEq, Eq)]
pub struct LastTick {
    pub moment: u64,
    pub place: u64,
}

/// A desk that lets its clock go on before it answers: before each order, before its first verdict, and before a verdict whose
/// moment is above that of its last tick. Each order and each verdict takes one moment of the clock. Its own ticks are none of the
/// commands that it accepted.
pub struct TickDesk<D: Desk, C: Clock> {
    desk: D,
    clock: C,
    ticks: u64,
    last: Option<LastTick>,
}

// Written by hand, as that of `State` is.
impl<D: Desk + Drop, C: Clock + Drop> Drop for TickDesk<D, C> {
    fn drop(self) {
        let TickDesk {
            desk: _,
            clock: _,
            ticks: _,
            last: _,
        } = self;
    }
}

impl<D: Desk, C: Clock> Model for TickDesk<D, C> {
    ghost use Rattle.std.specs.Prelude.{◌≤◌};
    ghost use Rattle.tick_desk.specs.Clocked.{Clocked, KnowsLast, ticks_in};

    ghost Value = { Clocked D C };

    ghost view = { λ desk. record { desk = desk.desk; clock = desk.clock; ticks = desk.ticks; last = desk.last } };

    ghost invariant = { λ desk. (desk.ticks ≤ (D.book desk.desk).accepted) × (desk.ticks ≤ ticks_in (D.book desk.desk).seen) × KnowsLast (D.book desk.desk) desk.last };
}

// Whether a verdict at a moment wants a tick before it.
fn is_due(last: Option<LastTick>, moment: u64) -> bool
    ensures { result ≡ false → StaysTicked moment last last }
{
    match last {
        None => true,
        Some(tick) => tick.moment < moment,
    }
}

impl<D: Desk, C: Clock> TickDesk<D, C> {
    /// A desk over another, with a clock. It has no last tick.
    pub fn new(desk: D, clock: C) -> Self
        ensures { result ≡ record { desk = desk; clock = clock; ticks = 0; last = None } }
    {
        TickDesk {
            desk,
            clock,
            ticks: 0,
            last: None,
        }
    }

    /// The desk beneath and the clock, handed back.
    pub fn into_parts(self) -> (D, C)
        ensures { result ≡ (self.desk, self.clock) }
    {
        let TickDesk {
            desk,
            clock,
            ticks: _,
            last: _,
        } = self;
        (desk, clock)
    }

    /// How many of its own ticks were accepted. So many ticks are among the entries that the desk beneath has seen.
    pub fn ticks(&self) -> u64
        ensures value { result ≡ self.now.ticks }
        ensures seen { self.now.ticks ≤ ticks_in (D.book self.now.desk).seen }
    {
        self.ticks
    }

    // Lets the clock of the desk beneath go on to a moment.
    fn advance(&mut self, alloc: Global, moment: u64) -> (u64, Result<bool, Memory>)
        ensures ticked { Ticked (D.book self.old.desk) (D.book self.new.desk) moment result.0 result.1 }
        ensures onward { GoesOn (D.book self.new.desk) result.0 }
        ensures clock { self.new.clock ≡ self.old.clock }
        ensures ticks { self.new.ticks ≡ self.old.ticks + length (added_by moment result.1) }
        ensures last { self.new.last ≡ last_after self.old.last moment result.0 result.1 }
        ensures counted { self.old.ticks ≤ (D.book self.old.desk).accepted }
        ensures known { KnowsLast (D.book self.new.desk) self.new.last }
    {
        let (place, answer) = self.desk.tick(alloc, moment);
        if let Ok(changed) = answer {
            if changed {
                // The entries that were seen are more than a number of 64 bits can count in no case, and so are these.
                let _seen = self.desk.place();
                self.ticks += 1;
            }
            self.last = Some(LastTick { moment, place });
        }
        (place, answer)
    }
}

impl<D: Desk, C: Clock> Desk for TickDesk<D, C> {
    ghost book = { λ clocked. without clocked.ticks (D.book clocked.desk) };

    // the desk beneath was asked, behind a tick perhaps, unless memory ran out
    ghost gave = { λ before key answer after. IfOk answer (λ _. (mid : D) × D.gave mid key answer after.desk) };

    fn place(&self) -> u64 {
        self.desk.place()
    }

    /// Where the clock tells its moments, it takes one. The last tick is at this moment, or stood and was at it or later.
    fn verdict(&mut self, alloc: Global, key: &Key) -> Result<(u64, Verdict), Memory>
        ensures gave { IfOk result (λ _. (mid : D) × D.gave mid key.now result self.new.desk) }
        ensures none { TakesNone (without self.old.ticks (D.book self.old.desk))
            (without self.new.ticks (D.book self.new.desk)) }
        ensures judged { IfOk result (λ r. Judged (length (D.book self.old.desk).seen)
            (without self.new.ticks (D.book self.new.desk)) key.now r.0 r.1) }
        ensures onward { IfOk result (λ r. GoesOn (without self.new.ticks (D.book self.new.desk)) r.0) }
        ensures clock { (m : ℕ) × Ticks (C.moments self.old.clock) (C.moments self.new.clock) m
            × CountsTicks m self.old.ticks self.new.ticks self.new.last (D.book self.new.desk).seen
            × IfOk result (λ _. HasTicked (length (D.book self.old.desk).seen) m self.new.last
            ⊎ StaysTicked m self.old.last self.new.last) }
        ensures on_time { IfOk result (λ r. IsOnTime (D.book self.new.desk) self.new.last r.0) }
    {
        let moment = self.clock.now();
        if !is_due(self.last, moment) {
            return self.desk.verdict(alloc, key);
        }
        let (_, ticked) = self.advance(alloc, moment);
        match ticked {
            Ok(_) => self.desk.verdict(alloc, key),
            Err(memory) => Err(memory),
        }
    }

    /// Where the clock tells its moments, it takes one. Unless memory runs out, the last tick is at this moment.
    fn order(&mut self, alloc: Global, order: Order) -> (u64, Result<Reply, OrderFault>)
        ensures ordered { Ordered (without self.old.ticks (D.book self.old.desk))
            (without self.new.ticks (D.book self.new.desk)) order result.0 result.1 }
        ensures onward { GoesOn (without self.new.ticks (D.book self.new.desk)) result.0 }
        ensures clock { (m : ℕ) × Ticks (C.moments self.old.clock) (C.moments self.new.clock) m
            × CountsTicks m self.old.ticks self.new.ticks self.new.last (D.book self.new.desk).seen
            × UnlessMemory result.1 (HasTicked (length (D.book self.old.desk).seen) m self.new.last) }
        ensures on_time { UnlessMemory result.1 (IsOnTime (D.book self.new.desk) self.new.last result.0) }
    {
        let moment = self.clock.now();
        let (place, ticked) = self.advance(alloc, moment);
        match ticked {
            Ok(_) => self.desk.order(alloc, order),
            Err(_) => (place, Err(OrderFault::Memory)),
        }
    }

    fn tick(&mut self, alloc: Global, moment: u64) -> (u64, Result<bool, Memory>) {
        self.desk.tick(alloc, moment)
    }

    fn site(&mut self, alloc: Global, tag: u64, item: u32) -> Result<SiteText, SiteFault> {
        self.desk.site(alloc, tag, item)
    }
}
