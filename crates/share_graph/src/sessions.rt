use host_base::{AccountId, Digest, GrainId, GrantId, RunId, SessionId};

/// As whom a session acts: an account, or the bearer of a grant.
#[derive(Clone, Copy, Debug, PartialEq, Eq)]
pub enum Root {
    Account(AccountId),
    Grant(GrantId),
}

/// A session on a grain, known by the digest of its key, for a tab of a browser.
#[derive(Clone, Copy, Debug, PartialEq, Eq)]
pub struct Session {
    pub num: SessionId,
    pub digest: Digest,
    pub grain: GrainId,
    pub root: Root,
    pub tab: u64,
    pub closed: bool,
}

/// A run of a grain, known by the digest of its token.
#[derive(Clone, Copy, Debug, PartialEq, Eq)]
pub struct Run {
    pub num: RunId,
    pub grain: GrainId,
    pub digest: Digest,
    pub stopped: bool,
}

/// A reference that a run holds: to a grant, by a number of the run's own.
#[derive(Clone, Copy, Debug, PartialEq, Eq)]
pub struct Handle {
    pub run: RunId,
    pub num: u32,
    pub grant: GrantId,
}
