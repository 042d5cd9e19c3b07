ghost use Rattle.std.specs.Prelude.{◌≡◌};
ghost use Rattle.row_tables.specs.declared.stored.LoadFault.TheVariants as load;

use row_formats::RowFault;
use std::alloc::{AllocError, AllocFailed};
use thiserror::Error;

/// The first bad row: its index, counted from 0, and its fault.
#[derive(Clone, Copy, Debug, PartialEq, Eq, Error)]
#[error("row {index}: {fault}")]
pub struct BadRow {
    pub index: usize,
    pub fault: RowFault,
}

/// Why rows weren't read.
#[derive(Clone, Copy, Debug, PartialEq, Eq, Error)]
pub enum LoadFault {
    #[error("out of memory")]
    Memory,
    #[error("{0}")]
    BadRow(BadRow),
}

impl From<AllocError> for LoadFault {
    ghost from_gives = { λ _ e. e ≡ load.Memory };

    fn from(_: AllocError) -> LoadFault {
        LoadFault::Memory
    }
}

impl<T: Drop> From<AllocFailed<T>> for LoadFault {
    ghost from_gives = { λ _ e. e ≡ load.Memory };

    fn from(_: AllocFailed<T>) -> LoadFault {
        LoadFault::Memory
    }
}
