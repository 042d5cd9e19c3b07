//! The verdict on a grant of which the way ends at an account or at the site.

ghost use Rattle.std.specs.Prelude.{IfOk};
ghost use Rattle.share_graph.specs.Checked.{IsChecked};
ghost use Rattle.share_graph.specs.Parents.{IsNoUser, IsOwnNode};
ghost use Rattle.share_graph.specs.Rows.{IsGrant};
ghost use Rattle.least_access.specs.Solved.{IsSolutionOf};
ghost use Rattle.session_table.specs.Verdict.{Stands, Reaches};
ghost use Rattle.session_table.specs.Standing.{behind_grant};

use crate::permits::stands;
use host_base::{GrantId, Memory, TabMark, Verdict};
use least_access::Solved;
use share_graph::{Grant, Node, Origin, Root, State, grant as find_grant, origin_of};
use std::alloc::Global;

/// The verdict on a grant.
pub fn grant_stands(
    alloc: Global,
    state: &State,
    solved: &Solved,
    num: GrantId,
    grant: &Grant,
) -> Result<Verdict, Memory>
    requires checked { IsChecked state.now.tables }
    requires solution { IsSolutionOf state.now.tables solved.now }
    requires row { IsGrant state.now.tables num grant.now }
    requires own { IsNoUser grant.now.target }
    ensures { IfOk result (Stands state.now (behind_grant num grant.now)) }
{
    let tab: Option<TabMark> = None;
    stands(alloc, state, solved, grant.grain, Root::Grant(num), tab)
}

/// The verdict on the grant of a good handle: as on any grant, but at the end of a way from the site the site's item in place of a permit.
pub fn reaches(
    alloc: Global,
    state: &State,
    solved: &Solved,
    num: GrantId,
) -> Result<Verdict, Memory>
    requires checked { IsChecked state.now.tables }
    requires solution { IsSolutionOf state.now.tables solved.now }
    requires own { IsOwnNode state.now.tables num }
    ensures { IfOk result (Reaches state.now num) }
{
    let Some(grant) = find_grant(&state.tables, num) else {
        unreachable!()
    };
    match origin_of(&state.tables, num) {
        Origin::Account(_) => grant_stands(alloc, state, solved, num, grant),
        Origin::Site { tag, item, .. } => {
            match solved.why_not(&state.tables, Node::Grant(num)) {
                Some(reason) => Ok(Verdict::Deny(reason)),
                None => Ok(Verdict::Site { tag, item }),
            }
        }
    }
}
