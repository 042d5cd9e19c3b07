ghost use Rattle.std.specs.Prelude.{◌≡◌};
ghost use Rattle.share_graph.specs.Checked.{IsChecked};
ghost use Rattle.share_graph.specs.Forms.{IsOne};
ghost use Rattle.share_graph.specs.Known.{HasGrant};
ghost use Rattle.share_graph.specs.Ways.{maker_of, EndsAt, IsOrigin, IsRoot, IsRootMaker, IsShownAs, IsWayTo};

use crate::finders::{grant as find_grant, row_at};
use crate::grants::Giver;
use crate::keyed::is_for_sharing;
use crate::state::Tables;
use host_base::{AccountId, GrantId};

/// Where the way of a grant ends: at the account that gave first, or at the site, by whom it gave.
#[derive(Clone, Copy, PartialEq, Eq)]
pub enum Origin {
    Account(AccountId),
    Site { by: AccountId, tag: u64, item: u32 },
}

impl Origin {
    /// The account there.
    pub fn maker(self) -> AccountId
        ensures { result ≡ maker_of self }
    {
        match self {
            Origin::Account(account) => account,
            Origin::Site { by, .. } => by,
        }
    }
}

// Where the ways end that lead to the grant of a number.
fn end_of(tables: &Tables, root: u64) -> Origin
    requires { IsRoot tables.now root }
    ensures { EndsAt tables.now root result }
{
    let Some(grant) = row_at(tables.grants.as_slice(), root) else {
        unreachable!();
    };
    match grant.giver {
        Giver::Account(account) => Origin::Account(account),
        Giver::Site { by, tag, item } => Origin::Site { by, tag, item },
        Giver::Grant(_) => unreachable!(),
    }
}

// The end of a grant's way, and whether some grant on it is marked for sharing.
fn way_end(tables: &Tables, num: GrantId) -> (Origin, bool)
    requires checked { IsChecked tables.now }
    requires there { HasGrant tables.now num }
    ensures { IsWayTo tables.now num result.0 result.1 }
{
    let mut at = num;
    let mut shared = false;
    loop {
        match find_grant(tables, at) {
            None => unreachable!(),
            Some(grant) => {
                shared |= is_for_sharing(grant.target);
                match grant.giver {
                    Giver::Account(account) => return (Origin::Account(account), shared),
                    Giver::Site { by, tag, item } => {
                        return (Origin::Site { by, tag, item }, shared);
                    }
                    Giver::Grant(parent) => {
                        if let Some(way) = tables.grants.way(u64::from(parent.0)) {
                            return (end_of(tables, way.root), shared | way.flagged);
                        }
                        at = parent;
                    }
                }
            }
        }
    }
}

/// Where the way of a grant ends.
#[tactic(auto, using(crate::proofs::WaysOne::origin_one))]
pub fn origin_of(tables: &Tables, num: GrantId) -> Origin
    requires checked { IsChecked tables.now }
    requires there { HasGrant tables.now num }
    ensures origin { IsOrigin tables.now num result }
    ensures one { IsOne (IsOrigin tables.now num) }
{
    way_end(tables, num).0
}

/// The account that a grant comes from in the end.
#[tactic(auto, using(crate::proofs::WaysOne::maker_one))]
pub fn root_maker(tables: &Tables, num: GrantId) -> AccountId
    requires checked { IsChecked tables.now }
    requires there { HasGrant tables.now num }
    ensures maker { IsRootMaker tables.now num result }
    ensures one { IsOne (IsRootMaker tables.now num) }
{
    origin_of(tables, num).maker()
}

/// As whom the bearer of a grant is shown: nobody where some grant on the way is marked for sharing, else its root maker.
pub fn shown_as(tables: &Tables, num: GrantId) -> Option<AccountId>
    requires checked { IsChecked tables.now }
    requires there { HasGrant tables.now num }
    ensures shown { IsShownAs tables.now num result }
    ensures one { IsOne (IsShownAs tables.now num) }
{
    let (end, shared) = way_end(tables, num);
    if shared { None } else { Some(end.maker()) }
}
