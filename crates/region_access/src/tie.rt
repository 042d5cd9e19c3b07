use host_base::{AccountId, GrainId};

/// What a grant hangs on beside nodes: the grain that it is on, which may go into the trash, an account that it needs to be an
/// admin, or the moment at which it ends.
#[derive(Clone, Copy, Debug, PartialEq, Eq, PartialOrd, Ord)]
pub enum Tie {
    Grain(GrainId),
    Admin(AccountId),
    End(u64),
}
