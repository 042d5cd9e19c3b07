use crate::facts::Node;
use host_base::{AccountId, Digest, GrainId, GrantId};
use perm_roles::{Assignment, PermSet};
use plain_data::List;
use std::alloc::AllocError;

/// What a grant was given from: an account, another grant, or the site itself.
#[derive(Clone, Copy, Debug, PartialEq, Eq)]
pub enum Giver {
    Account(AccountId),
    Grant(GrantId),
    Site { by: AccountId, tag: u64, item: u32 },
}

/// Whom a grant goes to: whoever bears its token, an account, a grain that may claim it, or a grain that did.
#[derive(Clone, Copy, Debug, PartialEq, Eq)]
pub enum Target {
    Bearer { for_sharing: bool },
    User(AccountId),
    Claim(GrainId),
    Grain(GrainId),
}

/// What has to hold for a grant to pass anything on.
#[derive(Clone, Copy, Debug, PartialEq, Eq)]
pub enum Need {
    /// The grant holds entry.
    TokenValid(GrantId),
    /// The holder holds entry and every permission of the set.
    PermissionsHeld { holder: Node, set: PermSet },
    /// The account is an enabled admin.
    UserIsAdmin(AccountId),
}

/// The needs of a grant, in their order.
pub type Needs = List<Need>;

/// A grant on a grain: what its giver passes on, to whom, and under which needs. A token is known by its digest.
pub struct Grant {
    pub num: GrantId,
    pub grain: GrainId,
    pub giver: Giver,
    pub target: Target,
    pub assignment: Assignment,
    pub needs: Needs,
    pub digest: Option<Digest>,
    pub revoked: bool,
    /// The moment from which on it passes nothing on, in seconds, from 1 on. Without one it doesn't end by itself.
    pub expires: Option<u64>,
}

// Written by hand, as those of the other rows are.
impl Drop for Grant {
    fn drop(self) {
        let Grant {
            num: _,
            grain: _,
            giver: _,
            target: _,
            assignment: _,
            needs: _,
            digest: _,
            revoked: _,
            expires: _,
        } = self;
    }
}

impl Clone for Grant {
    ghost use Rattle.std.specs.Prelude.{◌≡◌};

    ghost is_clone = { λ grant copy. copy ≡ grant };

    fn clone(&self) -> Result<Grant, AllocError> {
        Ok(Grant {
            num: self.num,
            grain: self.grain,
            giver: self.giver,
            target: self.target,
            assignment: self.assignment,
            needs: self.needs.clone()?,
            digest: self.digest,
            revoked: self.revoked,
            expires: self.expires,
        })
    }
}
