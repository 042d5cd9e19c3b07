//! How many orders of one pass met a fault.

ghost use Rattle.std.specs.Prelude.{◌≡◌};
ghost use Rattle.epoch_gate.specs.Counting.{counts_after, raised as raised_by};

use crate::book::Faults;

/// How many orders met a fault of the store, of the secrets and of the spawner. Each count stays at its last value.
#[derive(Clone, Copy, PartialEq, Eq)]
pub struct FaultCounts {
    pub store: u64,
    pub secrets: u64,
    pub starts: u64,
}

// A count, one higher where there was a fault and it isn't at its last value.
fn raised(count: u64, fault: bool) -> u64
    ensures { result ≡ raised_by count fault }
{
    if fault && count < u64::MAX {
        count + 1
    } else {
        count
    }
}

impl FaultCounts {
    /// No faults.
    pub fn none() -> Self
        ensures { result ≡ record { store = 0; secrets = 0; starts = 0 } }
    {
        FaultCounts {
            store: 0,
            secrets: 0,
            starts: 0,
        }
    }

    /// The counts once an order met these faults.
    pub fn after(self, faults: &Faults) -> Self
        ensures { result ≡ counts_after self faults.now }
    {
        FaultCounts {
            store: raised(self.store, faults.store),
            secrets: raised(self.secrets, faults.secrets),
            starts: raised(self.starts, faults.starts),
        }
    }
}
