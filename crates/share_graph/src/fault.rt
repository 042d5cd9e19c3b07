ghost use Rattle.std.specs.Prelude.{◌≡◌};
ghost use Rattle.share_graph.specs.Kinds.{kind_number};

use host_base::GrantId;
use thiserror::Error;

/// The kinds of what the server keeps, in their order.
#[derive(Clone, Copy, Debug, PartialEq, Eq)]
pub enum Kind {
    Account,
    App,
    Grain,
    Grant,
    Saved,
    Session,
    Handle,
    Run,
    Entry,
}

impl Kind {
    /// The number of the kind, from 1 to 9.
    pub fn number(self) -> u8
        ensures { result ≡ kind_number self }
    {
        match self {
            Kind::Account => 1,
            Kind::App => 2,
            Kind::Grain => 3,
            Kind::Grant => 4,
            Kind::Saved => 5,
            Kind::Session => 6,
            Kind::Handle => 7,
            Kind::Run => 8,
            Kind::Entry => 9,
        }
    }
}

/// Why tables are not sound: the fault of the first row that has one.
#[derive(Clone, Copy, Debug, PartialEq, Eq, Error)]
pub enum GraphFault {
    /// The row of that kind and number names a row that isn't there.
    #[error("a row names one that isn't there")]
    UnknownRow(Kind, u32),
    /// An earlier row has the row's digest.
    #[error("an earlier row has the digest")]
    DoubleDigest(Kind, u32),
    /// The grant has a giver or a need that it can't have.
    #[error("a grant has a giver or a need that it can't have")]
    BadParent(GrantId),
    /// The grant names one whose number isn't smaller.
    #[error("a grant names one whose number isn't smaller")]
    LateParent(GrantId),
    /// The row has a set, a role or a manifest that doesn't fit.
    #[error("a set, a role or a manifest doesn't fit")]
    BadSet(Kind, u32),
    /// The row has a handle, a token, a reference, an expiry or more needs than it can have.
    #[error("a handle, a token, a reference, an expiry or the needs don't fit")]
    BadShare(Kind, u32),
}
