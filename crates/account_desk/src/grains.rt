ghost use Rattle.std.specs.Prelude.{true, false};
ghost use Rattle.desk_base.specs.Terms.{IsOne, IsWellFormed};
ghost use Rattle.desk_base.specs.Fitting.{RowFits};
ghost use Rattle.desk_base.specs.Outcomes.{Checks, IsCarriedExactly, IsCarried};
ghost use Rattle.account_desk.specs.Commands.{NewGrain, grain_step, Trash};

use desk_base::{Answer, NOTHING, Outcome, Stop, caller_account, has_room, known_app, known_grain};
use host_base::{AccountId, AppId, GrainId};
use plain_data::Name;
use share_graph::{Caller, Event, Grain, Kind, Made, Refusal, State};

// The checks of `new_grain`: the account that is to own it.
fn check_new_grain(
    state: &State,
    caller: &Caller,
    app: AppId,
    title: &Name,
) -> Result<AccountId, Stop>
    ensures { Checks (NewGrain state.now caller.now app title.now)
        (grain_step state.now.tables app title.now) result }
{
    let owner = caller_account(state, caller)?;
    known_app(&state.tables, app)?;
    has_room(Kind::Grain, state.tables.grains.as_slice().len() as u64)?;
    Ok(owner.num)
}

/// Makes a grain of an application, owned by the caller. The reply shows its number.
#[tactic(auto, using(crate::proofs::OneRows::new_grain_one, crate::proofs::FitRows::new_grain_fits))]
pub fn new_grain(state: &State, caller: &Caller, app: AppId, title: &Name) -> Answer
    requires { IsWellFormed state.now }
    ensures row { IsCarried (NewGrain state.now caller.now app title.now) result }
    ensures one { IsOne (NewGrain state.now caller.now app title.now) }
    ensures fits { RowFits state.now false (NewGrain state.now caller.now app title.now) }
{
    let owner = check_new_grain(state, caller, app, title)?;
    let num = state.tables.grains.as_slice().len() as u32 + 1;
    let grain = Grain {
        num: GrainId(num),
        app,
        owner,
        title: title.clone()?,
        trashed: false,
    };
    let made = Made {
        grain: Some(num),
        ..NOTHING
    };
    Ok(Outcome::Change(Event::GrainAdded(grain), made))
}

// Puts a grain into the trash, or takes it out.
fn set_trashed(state: &State, caller: &Caller, num: GrainId, on: bool) -> Answer
    ensures { IsCarriedExactly (Trash state.now caller.now num on) result }
{
    let account = caller_account(state, caller)?;
    let grain = known_grain(&state.tables, num)?;
    if grain.owner != account.num {
        return Err(Stop::Refused(Refusal::NotOwner(num)));
    }
    if grain.trashed == on {
        return Err(Stop::Same(NOTHING));
    }
    Ok(Outcome::Change(Event::TrashedSet(num, on), NOTHING))
}

/// Puts a grain into the trash. Its run goes on.
#[tactic(auto, using(crate::proofs::OneRows::trash_one, crate::proofs::FitRows::trash_fits))]
pub fn trash(state: &State, caller: &Caller, num: GrainId) -> Answer
    requires { IsWellFormed state.now }
    ensures row { IsCarriedExactly (Trash state.now caller.now num true) result }
    ensures one { IsOne (Trash state.now caller.now num true) }
    ensures fits { RowFits state.now false (Trash state.now caller.now num true) }
{
    set_trashed(state, caller, num, true)
}

/// Takes a grain out of the trash.
#[tactic(auto, using(crate::proofs::OneRows::trash_one, crate::proofs::FitRows::trash_fits))]
pub fn untrash(state: &State, caller: &Caller, num: GrainId) -> Answer
    requires { IsWellFormed state.now }
    ensures row { IsCarriedExactly (Trash state.now caller.now num false) result }
    ensures one { IsOne (Trash state.now caller.now num false) }
    ensures fits { RowFits state.now false (Trash state.now caller.now num false) }
{
    set_trashed(state, caller, num, false)
}
