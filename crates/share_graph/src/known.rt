ghost use Rattle.std.specs.Prelude.{◌≡◌, ◌↔◌, IsTrue};
ghost use Rattle.share_graph.specs.Known.{HasAccount, HasGrain, HasGrant};
ghost use Rattle.share_graph.specs.Parents.{IsNoUser, IsOwnNode};

use crate::finders::{account, grain, grant as find_grant};
use crate::grants::Target;
use crate::state::Tables;
use host_base::{AccountId, GrainId, GrantId};

/// Whether the account of a number is there.
pub fn has_account(tables: &Tables, num: AccountId) -> bool
    ensures { IsTrue result ↔ HasAccount tables.now num }
{
    account(tables, num).is_some()
}

/// Whether the grain of a number is there.
pub fn has_grain(tables: &Tables, num: GrainId) -> bool
    ensures { IsTrue result ↔ HasGrain tables.now num }
{
    grain(tables, num).is_some()
}

/// Whether the grant of a number is there.
pub fn has_grant(tables: &Tables, num: GrantId) -> bool
    ensures { IsTrue result ↔ HasGrant tables.now num }
{
    find_grant(tables, num).is_some()
}

fn is_no_user(target: Target) -> bool
    ensures { IsTrue result ↔ IsNoUser target }
{
    match target {
        Target::User(_) => false,
        Target::Bearer { .. } => true,
        Target::Claim(_) => true,
        Target::Grain(_) => true,
    }
}

/// Whether a grant is there and goes to no account, and so is a node of its own.
pub fn is_own_node(tables: &Tables, num: GrantId) -> bool
    ensures { IsTrue result ↔ IsOwnNode tables.now num }
{
    match find_grant(tables, num) {
        None => false,
        Some(row) => is_no_user(row.target),
    }
}
