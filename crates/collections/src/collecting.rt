//! The share that a member of a collection is owed.

ghost use Rattle.std.specs.Prelude.{◌↔◌, IsTrue, false};
ghost use Rattle.desk_base.specs.Fitting.{RowFits};
ghost use Rattle.desk_base.specs.Outcomes.{IsCarried};
ghost use Rattle.desk_base.specs.Terms.{IsOne, IsWellFormed};
ghost use Rattle.live_access.specs.Kept.{IsSolvedFor};
ghost use Rattle.collections.specs.Commands.{Collect};
ghost use Rattle.collections.specs.Members.{IsOwed};

use crate::linking::link_of;
use crate::planning::is_left;
use crate::sharing::member_needs;
use desk_base::{Answer, NOTHING, Stop, caller_on, known_account};
use host_base::{AccountId, GrainId, GrantId};
use live_access::Solution;
use share_desk::share;
use share_graph::{Caller, Grant, Node, State, Tables};
use std::alloc::Global;

// Whether a member is owed a share.
fn is_owed(
    tables: &Tables,
    solution: &Solution,
    collection: GrainId,
    link: &Grant,
    curator: AccountId,
    member: AccountId,
) -> bool
    requires solved { IsSolvedFor tables.now solution.now }
    ensures { IsTrue result ↔ IsOwed tables.now collection link.now.num link.now curator member }
{
    let (solved, arrivals) = (solution.solved(), solution.arrivals());
    solved.access(Node::User(collection, member)).is_some()
        && is_left(tables, arrivals, collection, link, curator, member)
}

/// Gives a member of a collection its share of the grain that the curator, the caller, lists by a link of its own: what
/// the link gives, as long as the link holds entry and the member holds entry on the collection. Where the account is
/// owed none nothing is to be done. The reply shows the number of the grant. Refused as `missing` is, and as the share
/// is. Only the grants that go to the member on the listed grain are looked at.
pub fn collect(
    alloc: Global,
    state: &State,
    solution: &Solution,
    caller: &Caller,
    collection: GrainId,
    link: GrantId,
    member: AccountId,
) -> Answer
    requires formed { IsWellFormed state.now }
    requires solved { IsSolvedFor state.now.tables solution.now }
    ensures row { IsCarried (Collect state.now caller.now collection link member) result }
    ensures one { IsOne (Collect state.now caller.now collection link member) }
    ensures fits { RowFits state.now false (Collect state.now caller.now collection link member) }
{
    let (tables, solved) = (&state.tables, solution.solved());
    let curator = caller_on(state, solved, caller, collection)?;
    let link = link_of(tables, curator.num, link)?;
    known_account(tables, member)?;
    if !is_owed(tables, solution, collection, link, curator.num, member) {
        return Err(Stop::Same(NOTHING));
    }
    let needs = member_needs(collection, link.num, member);
    let (grain, by) = (link.grain, &link.assignment);
    share(
        alloc,
        state,
        solved,
        caller,
        grain,
        member,
        by,
        needs.as_slice(),
        None,
    )
}
