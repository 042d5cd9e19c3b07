//! The grants that commands add.

ghost use Rattle.std.specs.Prelude.{◌≡◌};
ghost use Rattle.desk_base.specs.Terms.{IsWellFormed};
ghost use Rattle.desk_base.specs.Granting as granting;
ghost use Rattle.desk_base.specs.Outcomes.{step_of};

use crate::made::{BLANK, shown_grant};
use crate::outcome::{Draft, Outcome};
use host_base::{Digest, GrainId, GrantId};
use perm_roles::{Assignment, Base, PermSet};
use share_graph::{Event, Giver, Grant, Needs, State, Target};

/// All that a grant's source holds.
pub fn all_access() -> Assignment
    ensures { result ≡ granting.all_access }
{
    Assignment {
        base: Base::AllAccess,
        add: PermSet::empty(),
        remove: PermSet::empty(),
    }
}

/// A new grant, which isn't revoked, and ends at the expiry, if it has one, in seconds.
pub fn new_grant(
    state: &State,
    grain: GrainId,
    giver: Giver,
    target: Target,
    assignment: Assignment,
    needs: Needs,
    expires: Option<u64>,
    digest: Option<Digest>,
) -> Grant
    requires { IsWellFormed state.now }
    ensures { result ≡ granting.new_grant state.now.tables grain giver target assignment needs
        expires digest }
{
    Grant {
        num: GrantId(state.tables.grants.as_slice().len() as u32 + 1),
        grain,
        giver,
        target,
        assignment,
        needs,
        digest,
        revoked: false,
        expires,
    }
}

/// The change that adds a grant, whose number the reply shows.
pub fn add_grant(
    state: &State,
    grain: GrainId,
    giver: Giver,
    target: Target,
    assignment: Assignment,
    needs: Needs,
    expires: Option<u64>,
) -> Outcome
    requires { IsWellFormed state.now }
    ensures { step_of result ≡ granting.grant_step state.now.tables grain giver target assignment
        needs expires }
{
    let grant = new_grant(
        state, grain, giver, target, assignment, needs, expires, None,
    );
    let made = shown_grant(grant.num.0);
    Outcome::Change(Event::GrantAdded(grant), made)
}

/// The same of a grant with a token, whose secret is drawn later.
pub fn draft_grant(
    state: &State,
    grain: GrainId,
    giver: Giver,
    target: Target,
    assignment: Assignment,
    needs: Needs,
    expires: Option<u64>,
) -> Outcome
    requires { IsWellFormed state.now }
    ensures { step_of result ≡ granting.token_step state.now.tables grain giver target assignment
        needs expires }
{
    let grant = new_grant(
        state,
        grain,
        giver,
        target,
        assignment,
        needs,
        expires,
        Some(BLANK),
    );
    let made = shown_grant(grant.num.0);
    Outcome::Draft(Draft {
        event: Event::GrantAdded(grant),
        made,
    })
}
