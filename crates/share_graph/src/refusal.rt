use crate::fault::Kind;
use app_manifest::ManifestFault;
use host_base::{AccountId, Denial, GrainId, GrantId};
use thiserror::Error;

/// Why a command is refused.
#[derive(Clone, Copy, Debug, PartialEq, Eq, Error)]
pub enum Refusal {
    /// The caller, or what the command names, isn't let through.
    #[error("the caller isn't let through")]
    Denied(Denial),
    /// The caller is no admin.
    #[error("the caller is no admin")]
    NotAdmin,
    /// The caller isn't the owner.
    #[error("the caller isn't the owner")]
    NotOwner(GrainId),
    /// The caller may not take the grant back.
    #[error("the caller may not take the grant back")]
    NotGiver(GrantId),
    /// The row of that kind and number isn't there.
    #[error("there is no such row")]
    Unknown(Kind, u32),
    /// The application has no such role.
    #[error("there is no role {0}")]
    BadRole(u16),
    /// The role isn't given any more.
    #[error("role {0} isn't given any more")]
    ObsoleteRole(u16),
    /// A set has a position that the application hasn't.
    #[error("a set has a position that the application hasn't")]
    LongSet,
    /// Nothing may be given from that grant.
    #[error("nothing may be given from that grant")]
    BadParent(GrantId),
    /// The caller would give to itself.
    #[error("the caller would give to itself")]
    SelfShare,
    /// That account has the handle.
    #[error("an account has the handle")]
    HandleTaken(AccountId),
    /// No enabled admin would be left.
    #[error("no enabled admin would be left")]
    LastAdmin,
    /// The manifest has that fault.
    #[error("the manifest: {0}")]
    Manifest(ManifestFault),
    /// The grant was claimed before.
    #[error("the grant was claimed before")]
    AlreadyClaimed(GrantId),
    /// What was chosen isn't offered.
    #[error("what was chosen isn't offered")]
    NoSuchOffer,
    /// What was chosen doesn't match the query.
    #[error("what was chosen doesn't match")]
    NoMatch,
    /// The run has no handle of that number.
    #[error("there is no handle {0}")]
    UnknownHandle(u32),
    /// There are as many of that kind as there may be.
    #[error("there are as many as there may be")]
    TooMany(Kind, u32),
    /// The drawn secret is that row's.
    #[error("the drawn secret is a row's")]
    TokenClash(Kind, u64),
    /// The need at that index, from 0, can't be had.
    #[error("need {0} can't be had")]
    BadNeed(u16),
    /// A grant would end at once: its expiry isn't above this moment, the last one.
    #[error("the expiry isn't above {0}")]
    PastMoment(u64),
}
