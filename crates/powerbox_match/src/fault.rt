//! Why a JSON value states no descriptor or query.

ghost use Rattle.std.specs.Prelude.{◌≡◌};
ghost use Rattle.powerbox_match.specs.declared.fault.ShapeFault.TheVariants.{Memory};

use std::alloc::{AllocError, AllocFailed};
use thiserror::Error;

/// Why a JSON value states no descriptor or query.
#[derive(Clone, Copy, PartialEq, Eq, Debug, Error)]
pub enum ShapeFault {
    /// The field of this number isn't as it should be: 0 for a query that isn't a list, 1 for
    /// `tags`, 2 for `quality`.
    #[error("field {0} isn't as it should be")]
    BadShape(u8),
    /// A tag's value nests deeper than 16.
    #[error("a tag's value nests too deep")]
    TooDeep,
    /// A descriptor has more than 32 tags.
    #[error("a descriptor has too many tags")]
    TooManyTags,
    /// There was no memory left.
    #[error("out of memory")]
    Memory,
}

impl From<AllocError> for ShapeFault {
    ghost from_gives = { λ _ fault. fault ≡ Memory };

    fn from(_error: AllocError) -> ShapeFault {
        ShapeFault::Memory
    }
}

impl<T: Drop> From<AllocFailed<T>> for ShapeFault {
    ghost from_gives = { λ _ fault. fault ≡ Memory };

    fn from(_error: AllocFailed<T>) -> ShapeFault {
        ShapeFault::Memory
    }
}
