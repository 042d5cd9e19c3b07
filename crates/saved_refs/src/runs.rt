//! The run that calls, and its handles.

ghost use Rattle.std.specs.Prelude.{◌≡◌, Some, None, MatchResult};
ghost use Rattle.share_graph.specs.declared.fault.Kind.TheVariants as kind;
ghost use Rattle.desk_base.specs.Limits.{too_many};
ghost use Rattle.desk_base.specs.Wording as wording;
ghost use Rattle.saved_refs.specs.Calling.{IsCallingRun, IsNoCallingRun};
ghost use Rattle.saved_refs.specs.Rows.{count_of, new_handle};

use desk_base::{has_room, secret_of};
use host_base::{Denial, GrantId, RunId};
use share_graph::{Caller, Handle, Kind, Refusal, Run, State, by_run_token, is_kept};

// The run of a caller, which isn't stopped and whose grain isn't in the trash.
pub(crate) fn caller_run<'a>(state: &'a State, caller: &Caller) -> Result<&'a Run, Refusal>
    ensures { MatchResult result (λ run. IsCallingRun state.now (wording.secret_of caller.now) run.now)
        (IsNoCallingRun state.now (wording.secret_of caller.now)) }
{
    let Some(run) = by_run_token(state, &secret_of(caller)) else {
        return Err(Refusal::Denied(Denial::UnknownKey));
    };
    if !is_kept(&state.tables, run.grain) {
        return Err(Refusal::Denied(Denial::GrainTrashed(run.grain)));
    }
    if run.stopped {
        return Err(Refusal::Denied(Denial::GrainStopped(run.grain)));
    }
    Ok(run)
}

// A run's next handle, to a grant, where there is room for it.
pub(crate) fn next_handle(state: &State, run: RunId, grant: GrantId) -> Result<Handle, Refusal>
    ensures { let over = too_many kind.Handle (count_of state.now.handles run) in
        MatchResult result (λ handle. (handle ≡ new_handle state.now run grant) × (over ≡ None))
        (λ refusal. over ≡ Some refusal) }
{
    let count = state.handles.count_of(run);
    has_room(Kind::Handle, count as u64)?;
    Ok(Handle {
        run,
        num: count as u32 + 1,
        grant,
    })
}
