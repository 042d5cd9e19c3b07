ghost use Rattle.std.specs.Prelude.{◌≡◌};
ghost use Rattle.first_account.specs.declared.fault.FirstFault.TheVariants as first;

use host_base::{DrawFailed, Memory};
use thiserror::Error;

/// Why there is no first account.
#[derive(Clone, Copy, Debug, PartialEq, Eq, Error)]
pub enum FirstFault {
    /// Memory ran out, and nothing was kept.
    #[error("out of memory")]
    Memory,
    /// A secret couldn't be drawn, and nothing was kept. It was counted.
    #[error("a secret couldn't be drawn")]
    SecretsFailed,
    /// The store failed, and nothing was kept. It was counted.
    #[error("the store failed")]
    StoreFailed,
}

impl From<Memory> for FirstFault {
    ghost from_gives = { λ _ e. e ≡ first.Memory };

    fn from(_: Memory) -> FirstFault {
        FirstFault::Memory
    }
}

impl From<DrawFailed> for FirstFault {
    ghost from_gives = { λ _ e. e ≡ first.SecretsFailed };

    fn from(_: DrawFailed) -> FirstFault {
        FirstFault::SecretsFailed
    }
}
