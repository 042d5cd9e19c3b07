ghost use Rattle.std.specs.Prelude.{◌≡◌, IfOk};
ghost use Rattle.state_step.specs.Staging.{event_of, HasRoomFor};

use crate::staged::Staged;
use host_base::Memory;
use share_graph::{Event, State};

/// Takes all the room that an event needs in a state, which stays as it is.
pub fn prepare(state: &State, event: Event) -> Result<Staged, Memory>
    ensures event { IfOk result (λ staged. event_of staged ≡ event) }
    ensures room { IfOk result (HasRoomFor state.now) }
{
    let tables = &state.tables;
    Ok(match event {
        Event::AccountAdded(row) => Staged::AccountAdded(row, tables.accounts.room()?),
        Event::AppAdded(row) => Staged::AppAdded(row, tables.apps.room()?),
        Event::AppUpgraded(num, manifest) => Staged::AppUpgraded(num, manifest),
        Event::GrainAdded(row) => Staged::GrainAdded(row, tables.grains.room()?),
        Event::GrantAdded(row) => Staged::GrantAdded(row, tables.grants.room()?),
        Event::SavedAdded(row) => Staged::SavedAdded(row, tables.saved.room()?),
        Event::AdminSet(num, on) => Staged::AdminSet(num, on),
        Event::EnabledSet(num, on) => Staged::EnabledSet(num, on),
        Event::LoginSet(num, login) => Staged::LoginSet(num, login),
        Event::TrashedSet(num, on) => Staged::TrashedSet(num, on),
        Event::GrantRevoked(num) => Staged::GrantRevoked(num),
        Event::Claimed(row, handle) => {
            Staged::Claimed(row, tables.grants.room()?, handle, state.handles.room()?)
        }
        Event::SavedDropped(num) => Staged::SavedDropped(num),
        Event::RunStarted(run) => Staged::RunStarted(run, state.runs.room()?),
        Event::RunStopped(num) => Staged::RunStopped(num),
        Event::SessionOpened(row) => Staged::SessionOpened(row, state.sessions.room()?),
        Event::SessionClosed(num) => Staged::SessionClosed(num),
        Event::HandleMade(handle) => Staged::HandleMade(handle, state.handles.room()?),
        Event::Ticked(moment) => Staged::Ticked(moment),
    })
}
