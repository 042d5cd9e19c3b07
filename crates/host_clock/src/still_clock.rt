ghost use Rattle.std.specs.Prelude.{◌≡◌, [], ◌∷◌, Some, IfOk};

use crate::clock::Clock;
use host_base::Memory;
use std::alloc::Global;
use std::marker::Model;

/// A clock that always gives the same moment.
#[derive(Drop)]
pub struct StillClock {
    moment: u64,
}

impl Model for StillClock {
    ghost use Rattle.std.specs.Prelude.{ℕ};

    ghost Value = { ℕ };

    ghost view = { λ clock. clock.moment };
}

impl StillClock {
    /// A clock that stands at a moment, in seconds.
    pub fn new(moment: u64) -> Self
        ensures { result ≡ moment }
    {
        StillClock { moment }
    }
}

impl Clock for StillClock {
    ghost moments = { λ moment. Some (moment ∷ []) };

    fn now(&mut self) -> u64 {
        self.moment
    }

    fn another(&self, _alloc: Global) -> Result<Self, Memory>
        ensures told { IfOk result (λ clock. Some (clock ∷ []) ≡ Some (self.now ∷ [])) }

        // It takes no memory.
        ensures value { result ≡ Ok self.now }
    {
        Ok(StillClock::new(self.moment))
    }
}
