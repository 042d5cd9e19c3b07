//! The statuses of ends.
ghost use Rattle.std.specs.Prelude.{◌≡◌};
ghost use Rattle.admin_run.specs.Statuses.{status_by, status_of_grain, status_of_made};

use cloud_serve::End;
use grain_program::GrainEnd;

/// The status of `play` by how its connection ended.
pub(crate) fn status_of(end: End) -> u8
    ensures { result ≡ status_by end }
{
    match end {
        End::Done => 0,
        End::Refused(_, _) => 3,
        End::ReadFault => 4,
        End::WriteFault => 5,
        End::CutOff(_) => 6,
        End::Memory => 7,
        End::Spent => 8,
    }
}

/// The status of `gen` by how its connection ended, whose input and output are memory.
pub(crate) fn status_of_memory(end: End) -> u8
    ensures { result ≡ status_of_made end }
{
    match end {
        End::ReadFault | End::WriteFault => 7,
        _ => status_of(end),
    }
}

/// The status of `grain` by how it ended.
pub(crate) fn status_of_end(end: GrainEnd) -> u8
    ensures { result ≡ status_of_grain end }
{
    match end {
        GrainEnd::Done => 0,
        GrainEnd::DoorFailed => 4,
        GrainEnd::WriteFailed => 5,
        GrainEnd::Memory => 7,
    }
}
