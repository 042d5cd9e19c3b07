//! What lies under the lock.

ghost use Rattle.std.specs.Prelude.{◌≡◌, ◌≤◌, length, IfOk};
ghost use Rattle.epoch_gate.specs.Books.{Acts};

use crate::seat::Placed;
use host_base::{Key, Memory};
use std::alloc::Global;
use std::marker::Brand;

/// The faults that an order met: of the store, of the secrets, and of the spawner.
#[derive(Clone, Copy, PartialEq, Eq)]
pub struct Faults {
    pub store: bool,
    pub secrets: bool,
    pub starts: bool,
}

/// A history that begins with a start, and that orders add entries to. What it shows of a key, and what it answers to an order, go by the
/// start and the entries alone.
pub trait Book {
    type Start;

    type Entry;

    type Order;

    type Answer;

    type View;

    ghost use Rattle.std.specs.Prelude.{List};
    ghost use Rattle.epoch_gate.specs.declared.book.Faults.{Faults};
    ghost use Rattle.host_base.specs.declared.key.Key.{Key};

    ghost start: { Self → Self.Start };

    ghost history: { Self → List Self.Entry };

    // Whether this is what is shown of a key, by a start and the entries so far.
    ghost shows: { Self.Start → List Self.Entry → Key → Self.View → Type 0 };

    // Whether this is answered to an order, by a start and the entries before it, with what it adds and the faults that it met.
    ghost answers: { Self.Start → List Self.Entry → Self.Order → Self.Answer → List Self.Entry → Faults → Type 0 };

    // Any start. A hub's name stands for it before a hub is made.
    ghost blank: { Self.Start };

    /// Answers an order, and says whether it added an entry, and what faults it met.
    fn act(&mut self, alloc: Global, order: Self::Order) -> (bool, Faults, Self::Answer)
        ensures start { start self.new ≡ start self.old }
        ensures acts { Acts (history self.old) (history self.new) result.0 (λ added.
            answers (start self.old) (history self.old) order result.2 added result.1) }
        ensures short { length (history self.new) ≤ 1000000 };

    /// What is shown of a key.
    fn look(&self, alloc: Global, key: &Key) -> Result<Self::View, Memory>
        ensures { IfOk result (shows (start self.now) (history self.now) key.now) };
}

/// Which hub it is: its word, and what its book begins with.
pub trait Named<S>: Placed {
    ghost use Rattle.std.specs.Prelude.{Option};

    ghost start: { Option S };
}

impl<S> Named<S> for Brand {
    ghost use Rattle.std.specs.Prelude.{None};

    ghost start = { None };
}
