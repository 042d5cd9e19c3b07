//! The grains that an account enters.

ghost use Rattle.std.specs.Prelude.{◌≡◌, ℕ, Contains, IfOk};
ghost use Rattle.std.specs.List.{AllZip};
ghost use Rattle.desk_base.specs.Outcomes.{IsAnswered};
ghost use Rattle.desk_base.specs.Terms.{IsOne, IsSolutionOf, IsWellFormed};
ghost use Rattle.live_access.specs.Kept.{IsSolvedFor};
ghost use Rattle.share_graph.specs.declared.facts.Fact.TheVariants.{Open};
ghost use Rattle.share_graph.specs.declared.facts.Node.TheVariants as node;
ghost use Rattle.share_graph.specs.Coherent.{IsCoherent};
ghost use Rattle.listings.specs.Choosing.{AreBehind, EntersBy};
ghost use Rattle.listings.specs.Commands.{Asks};
ghost use Rattle.listings.specs.Lines.{AreGrainLines, Enters, IsGrainLine};
ghost use Rattle.listings.specs.Terms.{Holds};

use crate::line::{GrainLine, GrainLines};
use crate::page::page_of;
use desk_base::caller_account;
use host_base::{AccountId, GrainId, Memory};
use least_access::Solved;
use live_access::Solution;
use plain_data::List;
use session_table::names_of;
use share_graph::{
    Caller, DeskFault, Node, State, account as find_account, app_of, grain as find_grain, live_run,
};
use std::alloc::Global;

// The numbers behind one of the grains that an account enters. Only the account's own nodes are looked at.
fn entered_behind(
    alloc: Global,
    solved: &Solved,
    account: AccountId,
    after: u32,
) -> Result<Vec<u32>, Memory>
    ensures { IfOk result (λ numbers. AreBehind (EntersBy solved.now account) after numbers.items) }
{
    let grains = solved.entered(alloc, account)?;
    let mut numbers = Vec::new(alloc);
    for grain in grains.as_slice() {
        if grain.0 > after {
            numbers.push(grain.0)?;
        }
    }
    Ok(numbers)
}

// The line of a grain that an account enters.
fn line_of(
    alloc: Global,
    state: &State,
    solved: &Solved,
    account: AccountId,
    num: GrainId,
) -> Result<GrainLine, Memory>
    requires coherent { IsCoherent state.now.tables }
    requires solution { IsSolutionOf state.now.tables solved.now }
    requires enters { Holds state.now.tables (node.User num account) Open }
    ensures { IfOk result (IsGrainLine state.now account num) }
{
    let tables = &state.tables;
    let Some(grain) = find_grain(tables, num) else {
        unreachable!()
    };
    let Some(app) = app_of(tables, num) else {
        unreachable!()
    };
    let Some(owner) = find_account(tables, grain.owner) else {
        unreachable!()
    };
    let Some(held) = solved.access(Node::User(num, account)) else {
        unreachable!()
    };
    let permissions = names_of(alloc, app, held)?;
    let title = grain.title.clone()?;
    let owner = owner.handle.clone()?;
    Ok(GrainLine {
        grain: num,
        app: grain.app,
        title,
        owner,
        permissions,
        running: live_run(state, num).is_some(),
    })
}

// A line of each grain that an account enters.
fn lines_of(
    alloc: Global,
    state: &State,
    solved: &Solved,
    account: AccountId,
    numbers: &[u32],
) -> Result<GrainLines, Memory>
    requires coherent { IsCoherent state.now.tables }
    requires solution { IsSolutionOf state.now.tables solved.now }
    requires enters { (n : ℕ) → Contains numbers.now n → Enters state.now.tables account n }
    ensures { IfOk result (AllZip (λ n. IsGrainLine state.now account (record { 0 = n })) numbers.now) }
{
    let mut lines = Vec::new(alloc);
    for number in numbers {
        lines.push(line_of(alloc, state, solved, account, GrainId(*number))?)?;
    }
    Ok(List::new(lines))
}

/// The grains behind a number that the caller's account enters, by number: a page of them, with what it holds on each. Only the
/// account's own nodes are looked at.
#[tactic(auto, using(crate::proofs::OneRows::asks_one))]
pub(crate) fn entered(
    alloc: Global,
    state: &State,
    solution: &Solution,
    caller: &Caller,
    after: GrainId,
) -> Result<GrainLines, DeskFault>
    requires formed { IsWellFormed state.now }
    requires solved { IsSolvedFor state.now.tables solution.now }
    ensures row { IsAnswered (Asks state.now caller.now) (AreGrainLines state.now caller.now after.0) result }
    ensures one { IsOne (Asks state.now caller.now) }
{
    let account = match caller_account(state, caller) {
        Ok(account) => account.num,
        Err(refusal) => return Err(DeskFault::Refused(refusal)),
    };
    let solved = solution.solved();
    let page = page_of(entered_behind(alloc, solved, account, after.0)?)?;
    let lines = lines_of(alloc, state, solved, account, page.as_slice())?;
    Ok(lines)
}
