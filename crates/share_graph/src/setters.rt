ghost use Rattle.std.specs.Prelude.{◌≡◌, ◌<◌, ◌+◌, ◌==◌, ◌⊎◌, length, count_by, not, MatchOption};
ghost use Rattle.share_graph.specs.Changing.{change, change_row};
ghost use Rattle.share_graph.specs.History.{is_open_of, close_first};
ghost use Rattle.share_graph.specs.Setting.{with_admin, with_enabled, with_login, with_manifest, with_trashed, revoked, dropped, stopped, closed};

use crate::grants::Grant;
use crate::keyed::root_mark;
use crate::row_list::{Rows, learn};
use crate::rows::{Account, App, Grain, Saved};
use crate::sessions::{Handle, Root, Run, Session};
use app_manifest::Manifest;
use host_base::{AccountId, AppId, Digest, GrainId, GrantId, RunId, SavedId, SessionId};
use row_index::Keyed;

// The place, from 0, of the row of a number, from 1.
fn place_of(num: u64, length: usize) -> Option<usize>
    ensures { MatchOption result ((num ≡ 0) ⊎ (length < num)) (λ place. (num ≡ place + 1)
        × (place < length)) }
{
    if num == 0 || num > length as u64 {
        return None;
    }
    Some(num as usize - 1)
}

impl Rows<Account> {
    /// Makes the account of a number an admin, or none. Where it isn't there nothing changes.
    #[tactic(auto, using(crate::proofs::ChangedRow::sets_nothing))]
    pub fn set_admin(&mut self, num: AccountId, on: bool)
        ensures { self.new ≡ change_row (with_admin on) self.old num.0 }
    {
        if let Some(place) = place_of(u64::from(num.0), self.items.len()) {
            self.items[place].admin = on;
        }
    }

    /// Enables the account of a number, or disables it. Where it isn't there nothing changes.
    #[tactic(auto, using(crate::proofs::ChangedRow::sets_nothing))]
    pub fn set_enabled(&mut self, num: AccountId, on: bool)
        ensures { self.new ≡ change_row (with_enabled on) self.old num.0 }
    {
        if let Some(place) = place_of(u64::from(num.0), self.items.len()) {
            self.items[place].enabled = on;
        }
    }

    /// Gives the account of a number another login. Where it isn't there nothing changes.
    #[tactic(auto, using(crate::proofs::ChangedRow::sets_nothing))]
    pub fn set_login(&mut self, num: AccountId, login: Digest)
        ensures { self.new ≡ change_row (with_login login) self.old num.0 }
    {
        if let Some(place) = place_of(u64::from(num.0), self.items.len()) {
            self.items[place].login = login;
            if learn(&self.items, &mut self.index, place) {
                self.starved = true;
            }
        }
    }
}

impl Rows<App> {
    /// Gives the application of a number another manifest. Where it isn't there nothing changes.
    #[tactic(auto, using(crate::proofs::ChangedRow::sets_nothing))]
    pub fn set_manifest(&mut self, num: AppId, manifest: Manifest)
        ensures { self.new ≡ change_row (with_manifest manifest) self.old num.0 }
    {
        if let Some(place) = place_of(u64::from(num.0), self.items.len()) {
            self.items[place].manifest = manifest;
        }
    }
}

impl Rows<Grain> {
    /// Puts the grain of a number into the trash, or takes it out. Where it isn't there nothing changes.
    #[tactic(auto, using(crate::proofs::ChangedRow::sets_nothing))]
    pub fn set_trashed(&mut self, num: GrainId, on: bool)
        ensures { self.new ≡ change_row (with_trashed on) self.old num.0 }
    {
        if let Some(place) = place_of(u64::from(num.0), self.items.len()) {
            self.items[place].trashed = on;
        }
    }
}

impl Rows<Grant> {
    /// Revokes the grant of a number. Where it isn't there nothing changes.
    #[tactic(auto, using(crate::proofs::ChangedRow::sets_nothing))]
    pub fn revoke(&mut self, num: GrantId)
        ensures { self.new ≡ change_row revoked self.old num.0 }
    {
        if let Some(place) = place_of(u64::from(num.0), self.items.len()) {
            self.items[place].revoked = true;
        }
    }
}

impl Rows<Saved> {
    /// Drops the saved reference of a number. Where it isn't there nothing changes.
    #[tactic(auto, using(crate::proofs::ChangedRow::sets_nothing))]
    pub fn drop_reference(&mut self, num: SavedId)
        ensures { self.new ≡ change_row dropped self.old num.0 }
    {
        if let Some(place) = place_of(u64::from(num.0), self.items.len()) {
            self.items[place].dropped = true;
        }
    }
}

impl Rows<Run> {
    /// Stops the run of a number. Where it isn't there nothing changes.
    #[tactic(auto, using(crate::proofs::ChangedRow::sets_nothing))]
    pub fn stop(&mut self, num: RunId)
        ensures { self.new ≡ change_row stopped self.old num.0 }
    {
        if let Some(place) = place_of(num.0, self.items.len()) {
            self.items[place].stopped = true;
        }
    }
}

impl Rows<Session> {
    /// How many sessions are open.
    pub fn open_count(&self) -> usize
        ensures { result ≡ count_by (λ session. not session.closed) self.now }
    {
        self.marked()
    }

    /// How many sessions of a root are open.
    pub fn open_of(&self, root: Root) -> usize
        ensures { result ≡ count_by (is_open_of root) self.now }
    {
        self.marked_as(root_mark(root))
    }

    // Closes the session of a place.
    fn close_at(&mut self, place: usize)
        requires { place < length self.old }
        ensures { self.new ≡ change closed self.old place }
    {
        let session = self.items[place];
        self.items[place] = Session {
            closed: true,
            ..session
        };
        if let Some(mark) = session.mark() {
            self.index.lose(mark, place);
        }
    }

    /// Closes the session of a number. Where it isn't there nothing changes.
    #[tactic(auto, using(crate::proofs::ChangedRow::sets_nothing))]
    pub fn close(&mut self, num: SessionId)
        ensures { self.new ≡ change_row closed self.old num.0 }
    {
        if let Some(place) = place_of(u64::from(num.0), self.items.len()) {
            self.close_at(place);
        }
    }

    /// Closes the first open session of a root. Where none is open nothing changes.
    pub fn close_first(&mut self, root: Root)
        ensures { self.new ≡ close_first root self.old }
    {
        if let Some(place) = self.first_marked(root_mark(root)) {
            self.close_at(place);
        }
    }
}

impl Rows<Handle> {
    /// How many handles a run has.
    pub fn count_of(&self, run: RunId) -> usize
        ensures { result ≡ count_by (λ handle. handle.run.0 == run.0) self.now }
    {
        self.marked_as(run.0)
    }
}
