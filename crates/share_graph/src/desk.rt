use crate::refusal::Refusal;
use host_base::{Digest, GrainId, Memory};
use thiserror::Error;

/// Who gives a command: each is known by the digest of a secret.
#[derive(Clone, Copy, PartialEq, Eq)]
pub enum Caller {
    /// The account with this login.
    Login(Digest),
    /// Whoever bears this token.
    Bearer(Digest),
    /// The run with this token.
    Run(Digest),
    /// The account with this login where there is one, else whoever bears this token.
    Either(Digest),
}

/// What may be chosen in the powerbox: a grain, or an item of the site's own under a driver's tag.
#[derive(Clone, Copy, PartialEq, Eq)]
pub enum Offer {
    Grain(GrainId),
    Site { tag: u64, item: u32 },
}

/// The numbers that the reply to a command shows.
#[derive(Clone, Copy, PartialEq, Eq)]
pub struct Made {
    pub account: Option<u32>,
    pub app: Option<u32>,
    pub grain: Option<u32>,
    pub grant: Option<u32>,
    pub handle: Option<u32>,
    pub saved: Option<u32>,
    pub session: Option<u32>,
}

/// Why a command isn't carried out.
#[derive(Clone, Copy, Debug, PartialEq, Eq, Error)]
pub enum DeskFault {
    #[error("refused: {0}")]
    Refused(Refusal),
    #[error("out of memory")]
    Memory,
}

impl From<Memory> for DeskFault {
    ghost use Rattle.std.specs.Prelude.{◌≡◌};
    ghost use Rattle.share_graph.specs.declared.desk.DeskFault.{DeskFault};

    ghost from_gives = { λ _ fault. fault ≡ DeskFault.Memory };

    fn from(_: Memory) -> DeskFault {
        DeskFault::Memory
    }
}
