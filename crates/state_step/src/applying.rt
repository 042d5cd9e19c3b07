ghost use Rattle.std.specs.Prelude.{◌≡◌, ◌∷◌, ◌++◌, [], List, IfOk};
ghost use Rattle.share_graph.specs.declared.event.Event.{Event};
ghost use Rattle.share_graph.specs.declared.state.State.{State};
ghost use Rattle.share_graph.specs.History as history;
ghost use Rattle.share_graph.specs.WellFormed.{IsWellFormed};
ghost use Rattle.state_step.specs.Fits.{IsDue};
ghost use Rattle.state_step.specs.Staging.{event_of, HasRoomFor};
ghost use Rattle.state_step.specs.Losing.{RevokesExactly, ShutsOut, LeavesTheRest};

use crate::staged::Staged;
use host_base::Memory;
use share_graph::{Event, State};

/// A copy of an event.
pub fn copy_of_event(event: &Event) -> Result<Event, Memory>
    ensures { IfOk result (λ copy. copy ≡ event.now) }
{
    match event.clone() {
        Ok(copy) => Ok(copy),
        Err(_) => Err(Memory),
    }
}

/// Performs an event for which all room was taken in the state as it is. It cannot fail: where an index wants memory, it covers fewer rows.
///
/// A state that is the replay of a history is then that of the history with this event. Where the event revokes a grant, a fact is
/// held afterwards exactly where it had a derivation that doesn't use the grant: whoever came in through the grant alone is shut
/// out, and what another derivation gives is held on. A well-formed state stays well formed where what is owed for the event holds.
pub fn apply(state: &mut State, staged: Staged)
    requires { HasRoomFor state.old staged }
    ensures step { state.new ≡ history.after state.old (event_of staged) }
    ensures history { (start : State) (events : List Event) → state.old ≡ history.replay start events →
        state.new ≡ history.replay start (events ++ event_of staged ∷ []) }
    ensures revoked { RevokesExactly state.old.tables (event_of staged) state.new.tables }
    ensures shut_out { ShutsOut state.old.tables (event_of staged) state.new.tables }
    ensures left { LeavesTheRest state.old.tables (event_of staged) state.new.tables }
    ensures formed { IsWellFormed state.old → IsDue state.old (event_of staged) → IsWellFormed state.new }
{
    staged.step(state);
}
