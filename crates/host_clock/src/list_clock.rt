ghost use Rattle.std.specs.Prelude.{◌≡◌, Some, IfOk};

use crate::clock::Clock;
use crate::moments::Moments;
use host_base::Memory;
use std::alloc::Global;
use std::marker::Model;

/// A clock that gives the moments of a list in their order, and then the last one again and again.
#[derive(Drop)]
pub struct ListClock {
    list: Moments,
    // the place in the list of what it gives next
    place: usize,
}

impl Model for ListClock {
    ghost use Rattle.std.specs.Prelude.{◌<◌, List, ℕ, drop, length};

    ghost Value = { List ℕ };

    ghost view = { λ clock. drop clock.place clock.list };

    ghost invariant = { λ clock. clock.place < length clock.list };
}

impl ListClock {
    /// A clock that gives these moments.
    pub fn new(list: Moments) -> Self
        ensures { result ≡ list }
    {
        ListClock { list, place: 0 }
    }
}

impl Clock for ListClock {
    ghost moments = { λ coming. Some coming };

    fn now(&mut self) -> u64 {
        let moments = self.list.as_slice();
        let moment = moments[self.place];
        if self.place + 1 < moments.len() {
            self.place += 1;
        }
        moment
    }

    fn another(&self, alloc: Global) -> Result<Self, Memory>
        ensures told { IfOk result (λ clock. Some clock ≡ Some self.now) }
    {
        let coming = Vec::from_slice(alloc, &self.list.as_slice()[self.place..])?;
        let Some(list) = Moments::new(coming) else {
            unreachable!();
        };
        Ok(ListClock::new(list))
    }
}
