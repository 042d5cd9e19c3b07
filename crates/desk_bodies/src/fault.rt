//! Why a body isn't what its route asks for.

ghost use Rattle.std.specs.Prelude.{◌≡◌};
ghost use Rattle.desk_bodies.specs.declared.fault.BodyFault.TheVariants as fault;

use app_manifest::ManifestFault;
use std::alloc::AllocError;
use thiserror::Error;

/// Why a body isn't what its route asks for.
#[derive(Clone, Copy, PartialEq, Eq, Debug, Error)]
pub enum BodyFault {
    /// 0: the body is no JSON object. Else the field of that number, in the order of the route's row, is the first one that is
    /// missing or not of its shape.
    #[error("field {0} of the body isn't as it should be")]
    BadBody(u8),
    /// The body is a manifest that has this fault.
    #[error("the manifest: {0}")]
    Manifest(ManifestFault),
    /// There was no memory left.
    #[error("out of memory")]
    Memory,
}

impl From<AllocError> for BodyFault {
    ghost from_gives = { λ _ answer. answer ≡ fault.Memory };

    fn from(_: AllocError) -> BodyFault {
        BodyFault::Memory
    }
}
