//! A job, and the worker that does it.

ghost use Rattle.std.specs.Prelude.{◌≤◌};
ghost use Rattle.epoch_gate.specs.Books.{start_of};
ghost use Rattle.hub_core.specs.Book.{Book};
ghost use Rattle.shared_hub.specs.Passing.{book_by};
ghost use Rattle.shared_hub.specs.Wanting.{blank};
ghost use Rattle.tick_desk.specs.Clocked.{ticks_in, without};

use crate::at_once::Task;
use epoch_gate::Named;
use host_clock::Clock;
use hub_core::{Desk, Holding};
use shared_hub::{Outset, PassDesk};
use site_caps::SiteDriver;
use std::alloc::Global;
use std::sync::Wait;
use std::sync::ledger::Ledger;
use tick_desk::TickDesk;

/// What one thread does with a desk whose history others share.
pub trait Job {
    ghost ready: { Self → Type 0 };

    ghost does: { Book → Book → Self → Self → Type 0 };

    /// Does it.
    fn work<D: Desk>(&mut self, alloc: Global, desk: &mut D)
        requires { ready self.old }
        ensures { does (D.book desk.old) (D.book desk.new) self.old self.new };
}

/// A job, with the desk that it is done by, which has a clock of its own.
#[derive(Drop)]
pub struct Worker<
    'a,
    H: Holding,
    C: SiteDriver + Drop,
    N: Named<Outset<H, C>>,
    L: Ledger,
    R: Wait,
    T: Clock + Drop,
    J: Drop,
> {
    pub alloc: Global,
    pub desk: TickDesk<PassDesk<'a, H, C, N, L, R>, T>,
    pub job: J,
}

impl<
    'a,
    H: Holding,
    C: SiteDriver + Drop,
    N: Named<Outset<H, C>>,
    L: Ledger,
    R: Wait,
    T: Clock + Drop,
    J: Job + Drop,
> Task for Worker<'a, H, C, N, L, R, T, J> {
    ghost ready = { λ worker. J.ready worker.job };

    ghost does = { λ old new. J.does
        (without old.desk.ticks (book_by C.Law.law (start_of blank N.start).start old.desk.desk))
        (without new.desk.ticks (book_by C.Law.law (start_of blank N.start).start new.desk.desk))
        old.job new.job × (new.desk.ticks ≤ ticks_in new.desk.desk.seen) };

    fn run(&mut self) {
        self.job.work(self.alloc, &mut self.desk);
        // What the desk knows of its own ticks.
        let _ticks = self.desk.ticks();
    }
}
