//! Saved references: saving what a handle is to, and restoring and dropping it by its token.

ghost use Rattle.std.specs.Prelude.{◌≡◌, MatchResult, false, true};
ghost use Rattle.desk_base.specs.Terms.{IsOne, IsSolutionOf, IsWellFormed};
ghost use Rattle.desk_base.specs.Fitting.{RowFits};
ghost use Rattle.desk_base.specs.Outcomes.{IsCarried, IsCarriedExactly};
ghost use Rattle.saved_refs.specs.Calling.{IsReferenceOf, IsNoReferenceOf};
ghost use Rattle.saved_refs.specs.Commands.{Save, Restore, DropSaved};
ghost use Rattle.saved_refs.specs.Rows.{shown_handle};

use crate::runs::{caller_run, next_handle};
use desk_base::{Answer, BLANK, Draft, NOTHING, Outcome, Stop, has_entry, has_room};
use host_base::{Denial, Digest, GrainId, SavedId};
use least_access::Solved;
use plain_data::Name;
use share_graph::{
    Caller, Event, Handle, Kind, Made, Node, Refusal, Saved, State, Tables, by_saved_token,
    handle as find_handle, handle_to,
};

/// Saves a reference, whose token is drawn, to the grant of a handle of the run that calls: the run's grain may restore it in
/// later runs. The reply shows the number of the reference.
#[tactic(auto, using(crate::proofs::OneRows::save_one, crate::proofs::FitRows::save_fits))]
pub fn save(state: &State, solved: &Solved, caller: &Caller, handle: u32, label: &Name) -> Answer
    requires formed { IsWellFormed state.now }
    requires solution { IsSolutionOf state.now.tables solved.now }
    ensures row { IsCarried (Save state.now caller.now handle label.now) result }
    ensures one { IsOne (Save state.now caller.now handle label.now) }
    ensures fits { RowFits state.now true (Save state.now caller.now handle label.now) }
{
    let run = caller_run(state, caller)?;
    let Some(own) = find_handle(state, run.num, handle) else {
        return Err(Stop::Refused(Refusal::UnknownHandle(handle)));
    };
    has_entry(&state.tables, solved, Node::Grant(own.grant))?;
    let count = state.tables.saved.as_slice().len();
    has_room(Kind::Saved, count as u64)?;
    let num = count as u32 + 1;
    let saved = Saved {
        num: SavedId(num),
        holder: run.grain,
        grant: own.grant,
        label: label.clone()?,
        digest: BLANK,
        dropped: false,
    };
    let made = Made {
        saved: Some(num),
        ..NOTHING
    };
    let event = Event::SavedAdded(saved);
    Ok(Outcome::Draft(Draft { event, made }))
}

// The saved reference of a token, which is the grain's own.
fn own_reference<'a>(
    tables: &'a Tables,
    token: &Digest,
    holder: GrainId,
) -> Result<&'a Saved, Refusal>
    ensures { MatchResult result (λ saved. IsReferenceOf tables.now token.now holder saved.now)
        (IsNoReferenceOf tables.now token.now holder) }
{
    let Some(saved) = by_saved_token(tables, token) else {
        return Err(Refusal::Denied(Denial::UnknownKey));
    };
    if saved.holder != holder {
        return Err(Refusal::Denied(Denial::NotHolder(saved.holder)));
    }
    Ok(saved)
}

// What the reply shows of a handle: its number.
fn shown(handle: &Handle) -> Made
    ensures { result ≡ shown_handle handle.now.num }
{
    Made {
        handle: Some(handle.num),
        ..NOTHING
    }
}

/// Restores a saved reference, by its token, for the run that calls, whose grain saved it: the run has a handle to its grant from
/// then on. Where it has one already nothing is to be done. The reply shows the number of the handle.
#[tactic(auto, using(crate::proofs::OneRows::restore_one, crate::proofs::FitRows::restore_fits))]
pub fn restore(state: &State, solved: &Solved, caller: &Caller, token: &Digest) -> Answer
    requires formed { IsWellFormed state.now }
    requires solution { IsSolutionOf state.now.tables solved.now }
    ensures row { IsCarriedExactly (Restore state.now caller.now token.now) result }
    ensures one { IsOne (Restore state.now caller.now token.now) }
    ensures fits { RowFits state.now false (Restore state.now caller.now token.now) }
{
    let run = caller_run(state, caller)?;
    let saved = own_reference(&state.tables, token, run.grain)?;
    if saved.dropped {
        return Err(Stop::Refused(Refusal::Denied(Denial::Dropped(saved.num))));
    }
    has_entry(&state.tables, solved, Node::Grant(saved.grant))?;
    if let Some(handle) = handle_to(&state.handles, run.num, saved.grant) {
        return Err(Stop::Same(shown(handle)));
    }
    let handle = next_handle(state, run.num, saved.grant)?;
    let made = shown(&handle);
    Ok(Outcome::Change(Event::HandleMade(handle), made))
}

/// Drops a saved reference, by its token, for the run that calls, whose grain saved it: it can't be restored any more. Handles that
/// were restored from it stay. Where it is dropped nothing is to be done.
#[tactic(auto, using(crate::proofs::OneRows::drop_saved_one, crate::proofs::FitRows::drop_saved_fits))]
pub fn drop_saved(state: &State, caller: &Caller, token: &Digest) -> Answer
    requires { IsWellFormed state.now }
    ensures row { IsCarriedExactly (DropSaved state.now caller.now token.now) result }
    ensures one { IsOne (DropSaved state.now caller.now token.now) }
    ensures fits { RowFits state.now false (DropSaved state.now caller.now token.now) }
{
    let run = caller_run(state, caller)?;
    let saved = own_reference(&state.tables, token, run.grain)?;
    if saved.dropped {
        return Err(Stop::Same(NOTHING));
    }
    Ok(Outcome::Change(Event::SavedDropped(saved.num), NOTHING))
}
