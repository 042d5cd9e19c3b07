ghost use Rattle.std.specs.Prelude.{◌≡◌};
ghost use Rattle.row_formats.specs.declared.fault.ReadError.TheVariants as errors;

use host_base::Memory;
use std::alloc::{AllocError, AllocFailed};
use thiserror::Error;

/// The first fault of a row, read from the left. Places are counted in bytes from the first of the row's body.
#[derive(Clone, Copy, Debug, PartialEq, Eq, Error)]
pub enum RowFault {
    /// The first byte is this one, which is no version of the row.
    #[error("version {0} is no version of the row")]
    BadVersion(u8),
    /// The body ends here, before a field does.
    #[error("the row ends at {0}, before a field does")]
    Short(usize),
    /// The field that begins here stands for nothing.
    #[error("the field at {0} stands for nothing")]
    BadField(usize),
    /// Here bytes stand behind the last field.
    #[error("at {0} bytes stand behind the last field")]
    Spare(usize),
    /// The row doesn't fit the other rows: the check of the tables finds the fault of this number.
    #[error("the row has the fault {0} among the other rows")]
    BadRef(u8),
}

/// Why a row wasn't read.
#[derive(Clone, Copy, Debug, PartialEq, Eq, Error)]
pub enum ReadError {
    #[error("out of memory")]
    Memory,
    #[error("{0}")]
    Fault(RowFault),
}

impl From<Memory> for ReadError {
    ghost from_gives = { λ _ e. e ≡ errors.Memory };

    fn from(_: Memory) -> ReadError {
        ReadError::Memory
    }
}

impl From<AllocError> for ReadError {
    ghost from_gives = { λ _ e. e ≡ errors.Memory };

    fn from(_: AllocError) -> ReadError {
        ReadError::Memory
    }
}

impl<T: Drop> From<AllocFailed<T>> for ReadError {
    ghost from_gives = { λ _ e. e ≡ errors.Memory };

    fn from(_: AllocFailed<T>) -> ReadError {
        ReadError::Memory
    }
}
