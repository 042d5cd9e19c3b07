use crate::grants::Grant;
use crate::rows::{Account, App, Grain, Saved};
use crate::sessions::{Handle, Run, Session};
use app_manifest::Manifest;
use host_base::{AccountId, AppId, Digest, GrainId, GrantId, RunId, SavedId, SessionId};

/// What an accepted command does: it adds a whole row, or sets one value of the row of a number.
#[derive(Clone, Drop)]
pub enum Event {
    AccountAdded(Account),
    AppAdded(App),
    /// The application has this manifest from then on.
    AppUpgraded(AppId, Manifest),
    GrainAdded(Grain),
    GrantAdded(Grant),
    SavedAdded(Saved),
    AdminSet(AccountId, bool),
    EnabledSet(AccountId, bool),
    /// The account is known by this login from then on.
    LoginSet(AccountId, Digest),
    TrashedSet(GrainId, bool),
    GrantRevoked(GrantId),
    /// A grain claimed a grant: what it holds from then on, and the handle to that.
    Claimed(Grant, Handle),
    SavedDropped(SavedId),
    RunStarted(Run),
    RunStopped(RunId),
    /// Where its root has 32 open sessions already, the one of the smallest number is closed.
    SessionOpened(Session),
    SessionClosed(SessionId),
    HandleMade(Handle),
    /// The clock is at this moment, which is above the one before. Grants whose expiry isn't above it have ended.
    Ticked(u64),
}
