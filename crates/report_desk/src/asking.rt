//! Who may ask, and what is answered.

ghost use Rattle.std.specs.Prelude.{◌≡◌, ◌↔◌, IsTrue, MatchResult, OnOk};
ghost use Rattle.desk_base.specs.Made.{nothing_made};
ghost use Rattle.desk_base.specs.Outcomes.{IsAnswered};
ghost use Rattle.desk_base.specs.Steps.{Keeps, Refuses};
ghost use Rattle.desk_base.specs.Terms.{IsOne, IsWellFormed};
ghost use Rattle.live_access.specs.Kept.{IsSolvedFor};
ghost use Rattle.share_graph.specs.Known.{HasAccount, HasGrain, HasGrant};
ghost use Rattle.report_desk.specs.Commands as commands;
ghost use Rattle.report_desk.specs.Lines.{AreAccessLines, AreLossLines};
ghost use Rattle.report_desk.specs.Reasons.{AreReasons};

use crate::holder::ReportLines;
use crate::lines::{access_lines, loss_lines};
use crate::reasons::reasons_of;
use crate::step::Reasons;
use desk_base::{caller_account, known_account, known_grain, known_grant};
use host_base::{AccountId, GrainId, GrantId};
use live_access::Solution;
use share_desk::may_revoke;
use share_graph::{Account, Caller, DeskFault, Grain, Refusal, State};
use std::alloc::Global;

// Whether an account owns a grain.
fn owns(account: &Account, grain: &Grain) -> bool
    ensures { IsTrue result ↔ (grain.now.owner ≡ account.now.num) }
{
    grain.owner == account.num
}

// Whether a caller may ask who has access to a grain.
fn check_access(state: &State, caller: &Caller, num: GrainId) -> Result<(), Refusal>
    ensures row { let Row = commands.Access state.now caller.now num in
        MatchResult result (λ _. Row (Keeps nothing_made)) (λ refusal. Row (Refuses refusal)) }
    ensures there { OnOk result (HasGrain state.now.tables num) }
{
    let account = caller_account(state, caller)?;
    let grain = known_grain(&state.tables, num)?;
    if !owns(account, grain) {
        return Err(Refusal::NotOwner(num));
    }
    Ok(())
}

/// Who has access to a grain, for its owner: a line of each node that holds entry, users by number, then grants by
/// number. Only the grain's own grants are looked at.
#[tactic(auto, using(crate::proofs::OneRows::access_one))]
pub fn access(
    alloc: Global,
    state: &State,
    solution: &Solution,
    caller: &Caller,
    num: GrainId,
) -> Result<ReportLines, DeskFault>
    requires formed { IsWellFormed state.now }
    requires solved { IsSolvedFor state.now.tables solution.now }
    ensures row { IsAnswered (commands.Access state.now caller.now num)
        (AreAccessLines state.now.tables num) result }
    ensures one { IsOne (commands.Access state.now caller.now num) }
{
    if let Err(refusal) = check_access(state, caller, num) {
        return Err(DeskFault::Refused(refusal));
    }
    let lines = access_lines(alloc, &state.tables, solution, num)?;
    Ok(lines)
}

// Whether a caller may ask what revoking a grant would take.
fn check_preview(state: &State, caller: &Caller, num: GrantId) -> Result<(), Refusal>
    requires { IsWellFormed state.now }
    ensures row { let Row = commands.Preview state.now caller.now num in
        MatchResult result (λ _. Row (Keeps nothing_made)) (λ refusal. Row (Refuses refusal)) }
    ensures there { OnOk result (HasGrant state.now.tables num) }
{
    let account = caller_account(state, caller)?;
    let grant = known_grant(&state.tables, num)?;
    if !may_revoke(&state.tables, account.num, num, grant) {
        return Err(Refusal::NotGiver(num));
    }
    Ok(())
}

/// What revoking a grant would take, for whoever may revoke it: a line of each loss, users by grain and account, then
/// grants by number. Only the nodes that the grant's node reaches are looked at.
#[tactic(auto, using(crate::proofs::OneRows::preview_one))]
pub fn preview(
    alloc: Global,
    state: &State,
    solution: &Solution,
    caller: &Caller,
    num: GrantId,
) -> Result<ReportLines, DeskFault>
    requires formed { IsWellFormed state.now }
    requires solved { IsSolvedFor state.now.tables solution.now }
    ensures row { IsAnswered (commands.Preview state.now caller.now num)
        (AreLossLines state.now.tables num) result }
    ensures one { IsOne (commands.Preview state.now caller.now num) }
{
    if let Err(refusal) = check_preview(state, caller, num) {
        return Err(DeskFault::Refused(refusal));
    }
    let lines = loss_lines(alloc, &state.tables, solution, num)?;
    Ok(lines)
}

// Whether an account may ask why another one has access to a grain.
fn may_ask_why(account: &Account, grain: &Grain, asked: AccountId) -> bool
    ensures { IsTrue result ↔ commands.MayAskWhy account.now grain.now asked }
{
    owns(account, grain) || asked == account.num
}

// Whether a caller may ask why an account has access to a grain.
fn check_why(state: &State, caller: &Caller, num: GrainId, asked: AccountId) -> Result<(), Refusal>
    ensures row { let Row = commands.Why state.now caller.now num asked in
        MatchResult result (λ _. Row (Keeps nothing_made)) (λ refusal. Row (Refuses refusal)) }
    ensures grain { OnOk result (HasGrain state.now.tables num) }
    ensures account { OnOk result (HasAccount state.now.tables asked) }
{
    let account = caller_account(state, caller)?;
    let grain = known_grain(&state.tables, num)?;
    known_account(&state.tables, asked)?;
    if !may_ask_why(account, grain, asked) {
        return Err(Refusal::NotOwner(num));
    }
    Ok(())
}

/// Why an account has access to a grain, for the owner of the grain and for that account: an explanation of entry, if
/// it is held, and then of each permission that is held, by position.
#[tactic(auto, using(crate::proofs::OneRows::why_one))]
pub fn why(
    alloc: Global,
    state: &State,
    solution: &Solution,
    caller: &Caller,
    num: GrainId,
    asked: AccountId,
) -> Result<Reasons, DeskFault>
    requires formed { IsWellFormed state.now }
    requires solved { IsSolvedFor state.now.tables solution.now }
    ensures row { IsAnswered (commands.Why state.now caller.now num asked)
        (AreReasons state.now.tables num asked) result }
    ensures one { IsOne (commands.Why state.now caller.now num asked) }
{
    if let Err(refusal) = check_why(state, caller, num, asked) {
        return Err(DeskFault::Refused(refusal));
    }
    let reasons = reasons_of(alloc, &state.tables, solution, num, asked)?;
    Ok(reasons)
}
