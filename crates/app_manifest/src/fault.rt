//! Why bytes state no manifest, or why a manifest may not take the place of another.

ghost use Rattle.std.specs.Prelude.{◌≡◌};
ghost use Rattle.app_manifest.specs.declared.fault.ManifestError.TheVariants.{Fault, Memory};

use std::alloc::AllocError;
use thiserror::Error;

/// Why bytes state no manifest, or why a manifest may not take the place of another.
///
/// Positions are counted from 0.
#[derive(Clone, Copy, PartialEq, Eq, Debug, Error)]
pub enum ManifestFault {
    /// The bytes are no JSON object.
    #[error("not a JSON object")]
    NotJson,
    /// The field of this number isn't as it should be: 1 the title, 2 the version, 3 the
    /// permissions, 4 the roles, 5 the match requests.
    #[error("field {0} isn't as it should be")]
    BadField(u8),
    /// There are too many: 1 permissions, 2 roles, 3 match requests.
    #[error("list {0} is too long")]
    TooMany(u8),
    /// The permission at this position has the name of an earlier one.
    #[error("permission {0} has the name of an earlier one")]
    DoubleName(usize),
    /// The list of the role at this position is longer than the list of permissions.
    #[error("role {0} has more permissions than there are")]
    LongSet(usize),
    /// The role at this position is the second default one.
    #[error("role {0} is a second default role")]
    TwoDefaults(usize),
    /// The name of the old permission at this position isn't there in the new list.
    #[error("permission {0} lost its name")]
    LostName(usize),
    /// The new list has this many roles, and the old one more.
    #[error("only {0} roles are left")]
    LostRole(usize),
}

impl ManifestFault {
    ghost use Rattle.app_manifest.specs.Fault.{number_of, argument_of};

    /// The number by which the fault is told to others, 1 to 8.
    pub fn number(&self) -> u8
        ensures { result ≡ number_of self.now }
    {
        match self {
            ManifestFault::NotJson => 1,
            ManifestFault::BadField(_) => 2,
            ManifestFault::TwoDefaults(_) => 3,
            ManifestFault::DoubleName(_) => 4,
            ManifestFault::LongSet(_) => 5,
            ManifestFault::TooMany(_) => 6,
            ManifestFault::LostName(_) => 7,
            ManifestFault::LostRole(_) => 8,
        }
    }

    /// The number of a field, of a list or of roles or the position that the fault names, or 0
    /// where it names none.
    pub fn argument(&self) -> usize
        ensures { result ≡ argument_of self.now }
    {
        match self {
            ManifestFault::NotJson => 0,
            ManifestFault::BadField(number) | ManifestFault::TooMany(number) => usize::from(
                *number,
            ),
            ManifestFault::DoubleName(place)
            | ManifestFault::LongSet(place)
            | ManifestFault::TwoDefaults(place)
            | ManifestFault::LostName(place) => *place,
            ManifestFault::LostRole(count) => *count,
        }
    }
}

/// Why there is no manifest: a fault, or want of memory.
#[derive(Clone, Copy, PartialEq, Eq, Debug, Error)]
pub enum ManifestError {
    /// What was stated has a fault.
    #[error("{0}")]
    Fault(ManifestFault),
    /// There was no memory left.
    #[error("out of memory")]
    Memory,
}

impl From<ManifestFault> for ManifestError {
    ghost from_gives = { λ fault error. error ≡ Fault fault };

    fn from(fault: ManifestFault) -> ManifestError {
        ManifestError::Fault(fault)
    }
}

impl From<AllocError> for ManifestError {
    ghost from_gives = { λ _ error. error ≡ Memory };

    fn from(_error: AllocError) -> ManifestError {
        ManifestError::Memory
    }
}
