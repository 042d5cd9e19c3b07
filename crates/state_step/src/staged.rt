ghost use Rattle.std.specs.Prelude.{◌≡◌, length};
ghost use Rattle.share_graph.specs.History as history;
ghost use Rattle.state_step.specs.Staging.{event_of, HasRoomFor};

use app_manifest::Manifest;
use host_base::{AccountId, AppId, Digest, GrainId, GrantId, RunId, SavedId, SessionId};
use share_graph::{Account, App, Grain, Grant, Handle, Room, Rows, Run, Saved, Session, State};

/// How many open sessions a root may have.
pub const ROOT_SESSIONS: usize = 32;

/// An event, with all the room that it takes: a row for each list that it adds to.
pub enum Staged {
    AccountAdded(Account, Room<Account>),
    AppAdded(App, Room<App>),
    AppUpgraded(AppId, Manifest),
    GrainAdded(Grain, Room<Grain>),
    GrantAdded(Grant, Room<Grant>),
    SavedAdded(Saved, Room<Saved>),
    AdminSet(AccountId, bool),
    EnabledSet(AccountId, bool),
    LoginSet(AccountId, Digest),
    TrashedSet(GrainId, bool),
    GrantRevoked(GrantId),
    Claimed(Grant, Room<Grant>, Handle, Room<Handle>),
    SavedDropped(SavedId),
    RunStarted(Run, Room<Run>),
    RunStopped(RunId),
    SessionOpened(Session, Room<Session>),
    SessionClosed(SessionId),
    HandleMade(Handle, Room<Handle>),
    Ticked(u64),
}

// Written by hand, as those of the rows are.
impl Drop for Staged {
    fn drop(self) {
        match self {
            Staged::AccountAdded(_, _) => (),
            Staged::AppAdded(_, _) => (),
            Staged::AppUpgraded(_, _) => (),
            Staged::GrainAdded(_, _) => (),
            Staged::GrantAdded(_, _) => (),
            Staged::SavedAdded(_, _) => (),
            Staged::AdminSet(_, _) => (),
            Staged::EnabledSet(_, _) => (),
            Staged::LoginSet(_, _) => (),
            Staged::TrashedSet(_, _) => (),
            Staged::GrantRevoked(_) => (),
            Staged::Claimed(_, _, _, _) => (),
            Staged::SavedDropped(_) => (),
            Staged::RunStarted(_, _) => (),
            Staged::RunStopped(_) => (),
            Staged::SessionOpened(_, _) => (),
            Staged::SessionClosed(_) => (),
            Staged::HandleMade(_, _) => (),
            Staged::Ticked(_) => (),
        }
    }
}

// Opens a session. Where its root then has more than 32 open ones, the first of them is closed.
fn open(sessions: &mut Rows<Session>, session: Session, room: Room<Session>)
    requires { room ≡ length sessions.old }
    ensures { sessions.new ≡ history.opened sessions.old session }
{
    let root = session.root;
    sessions.put(session, room);
    if sessions.open_of(root) > ROOT_SESSIONS {
        sessions.close_first(root);
    }
}

impl Staged {
    // The step of an event for which all room was taken.
    pub(crate) fn step(self, state: &mut State)
        requires { HasRoomFor state.old self }
        ensures { state.new ≡ history.after state.old (event_of self) }
    {
        match self {
            Staged::AccountAdded(row, room) => state.tables.accounts.put(row, room),
            Staged::AppAdded(row, room) => state.tables.apps.put(row, room),
            Staged::AppUpgraded(num, manifest) => state.tables.apps.set_manifest(num, manifest),
            Staged::GrainAdded(row, room) => state.tables.grains.put(row, room),
            Staged::GrantAdded(row, room) => state.tables.grants.put(row, room),
            Staged::SavedAdded(row, room) => state.tables.saved.put(row, room),
            Staged::AdminSet(num, on) => state.tables.accounts.set_admin(num, on),
            Staged::EnabledSet(num, on) => state.tables.accounts.set_enabled(num, on),
            Staged::LoginSet(num, login) => state.tables.accounts.set_login(num, login),
            Staged::TrashedSet(num, on) => state.tables.grains.set_trashed(num, on),
            Staged::GrantRevoked(num) => state.tables.grants.revoke(num),
            Staged::Claimed(row, room, handle, more) => {
                state.tables.grants.put(row, room);
                state.handles.put(handle, more);
            }
            Staged::SavedDropped(num) => state.tables.saved.drop_reference(num),
            Staged::RunStarted(run, room) => state.runs.put(run, room),
            Staged::RunStopped(num) => state.runs.stop(num),
            Staged::SessionOpened(session, room) => open(&mut state.sessions, session, room),
            Staged::SessionClosed(num) => state.sessions.close(num),
            Staged::HandleMade(handle, room) => state.handles.put(handle, room),
            Staged::Ticked(moment) => state.tables.moment = moment,
        }
    }
}
