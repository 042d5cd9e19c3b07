//! Shares to accounts.

ghost use Rattle.std.specs.Prelude.{false};
ghost use Rattle.desk_base.specs.Terms.{IsOne, IsSolutionOf, IsWellFormed};
ghost use Rattle.desk_base.specs.Fitting.{RowFits};
ghost use Rattle.desk_base.specs.Outcomes.{IsCarried};
ghost use Rattle.share_desk.specs.Commands.{Share};

use crate::giving::give;
use desk_base::{Answer, Stop, caller_account, has_entry, known_account, known_grain};
use host_base::{AccountId, GrainId};
use least_access::Solved;
use perm_roles::Assignment;
use share_graph::{Caller, Giver, Need, Node, Refusal, State, Target};
use std::alloc::Global;

/// Shares a grain, to which the caller has access, with another account, until the expiry, if there is one, in seconds.
/// The reply shows the number of the grant.
#[tactic(auto, using(crate::proofs::OneRows::share_one, crate::proofs::FitRows::share_fits))]
pub fn share(
    alloc: Global,
    state: &State,
    solved: &Solved,
    caller: &Caller,
    num: GrainId,
    to: AccountId,
    assignment: &Assignment,
    needs: &[Need],
    expires: Option<u64>,
) -> Answer
    requires formed { IsWellFormed state.now }
    requires solution { IsSolutionOf state.now.tables solved.now }
    ensures row { IsCarried (Share state.now caller.now num to assignment.now needs.now expires) result }
    ensures one { IsOne (Share state.now caller.now num to assignment.now needs.now expires) }
    ensures fits { RowFits state.now false
        (Share state.now caller.now num to assignment.now needs.now expires) }
{
    let from = caller_account(state, caller)?;
    known_grain(&state.tables, num)?;
    known_account(&state.tables, to)?;
    has_entry(&state.tables, solved, Node::User(num, from.num))?;
    if to == from.num {
        return Err(Stop::Refused(Refusal::SelfShare));
    }
    let (giver, target) = (Giver::Account(from.num), Target::User(to));
    give(alloc, state, num, giver, target, assignment, needs, expires)
}
