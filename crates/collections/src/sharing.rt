//! The shares that members have.

ghost use Rattle.std.specs.Prelude.{◌≡◌, ◌↔◌, IsTrue, false, None, Contains};
ghost use Rattle.host_base.specs.declared.ids.GrantId as the_id;
ghost use Rattle.region_access.specs.Arriving.{IsArrivalsOf};
ghost use Rattle.region_work.specs.Fed.{fed_in};
ghost use Rattle.collections.specs.Members.{HasShare, IsMemberShare, member_needs as the_needs};
ghost use Rattle.collections.specs.Scan.{IsShareAt};

use host_base::{AccountId, GrainId, GrantId};
use perm_roles::PermSet;
use region_work::edges::{Edges, fed_by};
use share_graph::{Grant, Need, Node, Tables, Target, grant as find_grant};

/// The needs of a member's share: the link holds entry, and the member holds entry on the collection.
pub(crate) fn member_needs(collection: GrainId, link: GrantId, member: AccountId) -> [Need; 2]
    ensures { result ≡ the_needs collection link member }
{
    let (holder, set) = (Node::User(collection, member), PermSet::empty());
    [
        Need::TokenValid(link),
        Need::PermissionsHeld { holder, set },
    ]
}

// Whether needs are those of a member's share.
fn are_member_needs(needs: &[Need], collection: GrainId, link: GrantId, member: AccountId) -> bool
    ensures { IsTrue result ↔ (needs.now ≡ the_needs collection link member) }
{
    needs == member_needs(collection, link, member).as_slice()
}

// Whether a grant gives what another one gives.
fn gives_as(share: &Grant, link: &Grant) -> bool
    ensures { IsTrue result ↔ ((share.now.giver ≡ link.now.giver) × (share.now.grain ≡ link.now.grain)
        × (share.now.assignment ≡ link.now.assignment)) }
{
    share.giver == link.giver && share.grain == link.grain && share.assignment == link.assignment
}

// Whether a grant goes to a member, without an end, and isn't revoked.
fn goes_to(share: &Grant, member: AccountId) -> bool
    ensures { IsTrue result ↔ ((share.now.target ≡ Target.User member) × (share.now.expires ≡ None)
        × (share.now.revoked ≡ false)) }
{
    share.target == Target::User(member) && share.expires.is_none() && !share.revoked
}

// Whether a grant is a member's share that isn't revoked.
fn is_share(collection: GrainId, link: &Grant, member: AccountId, share: &Grant) -> bool
    ensures { IsTrue result ↔ (IsMemberShare collection link.now.num link.now member share.now
        × (share.now.revoked ≡ false)) }
{
    gives_as(share, link)
        && goes_to(share, member)
        && are_member_needs(share.needs.as_slice(), collection, link.num, member)
}

// Whether the grant of a number is a member's share that isn't revoked.
fn is_share_at(
    tables: &Tables,
    collection: GrainId,
    link: &Grant,
    member: AccountId,
    num: GrantId,
) -> bool
    ensures { IsTrue result ↔ IsShareAt tables.now collection link.now.num link.now member num }
{
    match find_grant(tables, num) {
        Some(share) => is_share(collection, link, member, share),
        None => false,
    }
}

// Whether one of some grants is a member's share that isn't revoked.
fn has_share_among(
    tables: &Tables,
    collection: GrainId,
    link: &Grant,
    member: AccountId,
    grants: &[GrantId],
) -> bool
    ensures { IsTrue result ↔ ((num : the_id.GrantId) × Contains grants.now num
        × IsShareAt tables.now collection link.now.num link.now member num) }
{
    grants
        .iter()
        .any(|num| is_share_at(tables, collection, link, member, *num))
}

// Whether a member has a share that isn't revoked. Only the grants that go to it on the listed grain are looked at.
pub(crate) fn has_share(
    tables: &Tables,
    arrivals: &Edges,
    collection: GrainId,
    link: &Grant,
    member: AccountId,
) -> bool
    requires { IsArrivalsOf tables.now (fed_in arrivals.now.entries) }
    ensures { IsTrue result ↔ HasShare tables.now collection link.now.num link.now member }
{
    let grants = fed_by(arrivals, Node::User(link.grain, member));
    has_share_among(tables, collection, link, member, grants)
}
