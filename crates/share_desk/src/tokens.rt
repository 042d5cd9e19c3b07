//! Links and tokens: grants to whoever bears their tokens.

ghost use Rattle.std.specs.Prelude.{true};
ghost use Rattle.desk_base.specs.Terms.{IsOne, IsSolutionOf, IsWellFormed};
ghost use Rattle.desk_base.specs.Fitting.{RowFits};
ghost use Rattle.desk_base.specs.Outcomes.{IsCarried};
ghost use Rattle.share_desk.specs.Commands.{MakeToken, Child};

use crate::giving::give;
use desk_base::{Answer, caller_grant, caller_on};
use host_base::GrainId;
use least_access::Solved;
use perm_roles::Assignment;
use share_graph::{Caller, Giver, Need, State, Target};
use std::alloc::Global;

/// Makes a token, which is drawn, to a grain to which the caller has access: for sharing it is a link, and else an API token.
/// The grant lasts until the expiry, if there is one, in seconds. The reply shows its number.
#[tactic(auto, using(crate::proofs::OneRows::make_token_one, crate::proofs::FitRows::make_token_fits))]
pub fn make_token(
    alloc: Global,
    state: &State,
    solved: &Solved,
    caller: &Caller,
    num: GrainId,
    for_sharing: bool,
    assignment: &Assignment,
    needs: &[Need],
    expires: Option<u64>,
) -> Answer
    requires formed { IsWellFormed state.now }
    requires solution { IsSolutionOf state.now.tables solved.now }
    ensures row { IsCarried
        (MakeToken state.now caller.now num for_sharing assignment.now needs.now expires) result }
    ensures one { IsOne (MakeToken state.now caller.now num for_sharing assignment.now needs.now expires) }
    ensures fits { RowFits state.now true
        (MakeToken state.now caller.now num for_sharing assignment.now needs.now expires) }
{
    let from = caller_on(state, solved, caller, num)?;
    let (giver, target) = (Giver::Account(from.num), Target::Bearer { for_sharing });
    give(alloc, state, num, giver, target, assignment, needs, expires)
}

/// Makes a further token, which is drawn, from the grant whose token the caller bears, on the same grain, until the
/// expiry, if there is one, in seconds. The reply shows the number of its grant.
#[tactic(auto, using(crate::proofs::OneRows::child_one, crate::proofs::FitRows::child_fits))]
pub fn child(
    alloc: Global,
    state: &State,
    solved: &Solved,
    caller: &Caller,
    for_sharing: bool,
    assignment: &Assignment,
    needs: &[Need],
    expires: Option<u64>,
) -> Answer
    requires formed { IsWellFormed state.now }
    requires solution { IsSolutionOf state.now.tables solved.now }
    ensures row { IsCarried (Child state.now caller.now for_sharing assignment.now needs.now expires) result }
    ensures one { IsOne (Child state.now caller.now for_sharing assignment.now needs.now expires) }
    ensures fits { RowFits state.now true
        (Child state.now caller.now for_sharing assignment.now needs.now expires) }
{
    let from = caller_grant(state, solved, caller)?;
    let (giver, target) = (Giver::Grant(from.num), Target::Bearer { for_sharing });
    give(
        alloc, state, from.grain, giver, target, assignment, needs, expires,
    )
}
