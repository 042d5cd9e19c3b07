ghost use Rattle.std.specs.Prelude.{◌≡◌, List, ℕ, Option, IfOk};
ghost use Rattle.host_clock.specs.Ticking.{Ticks};

use host_base::Memory;
use std::alloc::Global;

/// What tells the moment. It has no fault. The moments still to come are told by the forms in memory alone.
pub trait Clock {
    ghost moments: { Self → Option (List ℕ) };

    /// The moment, in seconds.
    fn now(&mut self) -> u64
        ensures { Ticks (moments self.old) (moments self.new) result };

    /// A clock that goes on from where this one stands.
    fn another(&self, alloc: Global) -> Result<Self, Memory>
        ensures { IfOk result (λ clock. moments clock ≡ moments self.now) };
}
