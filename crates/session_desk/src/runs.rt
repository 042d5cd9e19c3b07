ghost use Rattle.std.specs.Prelude.{◌↔◌, IsTrue, true, false};
ghost use Rattle.desk_base.specs.Terms.{IsOne, IsSolutionOf, IsWellFormed};
ghost use Rattle.desk_base.specs.Fitting.{RowFits};
ghost use Rattle.desk_base.specs.Outcomes.{IsCarriedExactly};
ghost use Rattle.session_desk.specs.Calling.{NamesGrain};
ghost use Rattle.session_desk.specs.Commands.{StartRun, StopRun};
ghost use Rattle.session_desk.specs.Rows.{MayStop};

use crate::callers::actor_of;
use desk_base::{Answer, BLANK, Draft, NOTHING, Outcome, Stop, caller_account, known_grain};
use host_base::{GrainId, RunId};
use least_access::Solved;
use share_graph::{Account, Caller, Event, Grain, Refusal, Run, State, live_run};

/// Starts a run of a grain, whose token is drawn: of the grain that a login names and has access to, or that of a
/// bearer's grant. Where a run of it is live nothing is to be done.
pub fn start_run(state: &State, solved: &Solved, caller: &Caller, num: Option<GrainId>) -> Answer
    requires formed { IsWellFormed state.now }
    requires solution { IsSolutionOf state.now.tables solved.now }
    requires named { NamesGrain caller.now num }
    ensures row { IsCarriedExactly (StartRun state.now caller.now num) result }
    ensures one { IsOne (StartRun state.now caller.now num) }
    ensures fits { RowFits state.now true (StartRun state.now caller.now num) }
{
    let actor = actor_of(state, solved, caller, num)?;
    if let Some(_) = live_run(state, actor.grain) {
        return Err(Stop::Same(NOTHING));
    }
    let run = Run {
        num: RunId(state.runs.as_slice().len() as u64 + 1),
        grain: actor.grain,
        digest: BLANK,
        stopped: false,
    };
    let (event, made) = (Event::RunStarted(run), NOTHING);
    Ok(Outcome::Draft(Draft { event, made }))
}

// Whether an account may stop the run of a grain.
fn may_stop(account: &Account, grain: &Grain) -> bool
    ensures { IsTrue result ↔ MayStop account.now grain.now }
{
    grain.owner == account.num || account.admin
}

/// Stops the live run of a grain, which its owner and admins may. Where none is live nothing is to be done.
#[tactic(auto, using(crate::proofs::OneRows::stop_run_one, crate::proofs::FitRows::stop_run_fits))]
pub fn stop_run(state: &State, caller: &Caller, num: GrainId) -> Answer
    requires { IsWellFormed state.now }
    ensures row { IsCarriedExactly (StopRun state.now caller.now num) result }
    ensures one { IsOne (StopRun state.now caller.now num) }
    ensures fits { RowFits state.now false (StopRun state.now caller.now num) }
{
    let account = caller_account(state, caller)?;
    let grain = known_grain(&state.tables, num)?;
    if !may_stop(account, grain) {
        return Err(Stop::Refused(Refusal::NotOwner(num)));
    }
    match live_run(state, num) {
        Some(run) => Ok(Outcome::Change(Event::RunStopped(run.num), NOTHING)),
        None => Err(Stop::Same(NOTHING)),
    }
}
