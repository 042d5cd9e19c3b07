//! The system's clock.

use host_base::Memory;
use host_clock::Clock;
use std::alloc::Global;
use std::time;

/// The system's clock, in whole seconds since 1970. It never goes back: where the system's does, or can't be read, the moment is
/// the last one that was given. Its moments aren't told.
#[derive(Drop)]
pub struct SystemClock<'a, R> {
    rt: &'a R,
    last: u64,
}

impl<'a, R: time::Clock> SystemClock<'a, R> {
    /// The clock of a runtime.
    pub fn new(rt: &'a R) -> Self {
        SystemClock { rt, last: 0 }
    }
}

impl<'a, R: time::Clock> Clock for SystemClock<'a, R> {
    ghost use Rattle.std.specs.Prelude.{None};

    ghost moments = { λ clock. None };

    fn now(&mut self) -> u64 {
        if let Ok(since) = self.rt.since_1970() {
            self.last = self.last.max(since.as_secs());
        }
        self.last
    }

    fn another(&self, _alloc: Global) -> Result<Self, Memory> {
        Ok(SystemClock {
            rt: self.rt,
            last: self.last,
        })
    }
}
