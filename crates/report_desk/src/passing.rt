//! The grants of an explanation, as they are shown.

ghost use Rattle.std.specs.Prelude.{◌≡◌, ◌↔◌, ◌<◌, IfOk, IsTrue, Some, length, slice_get};
ghost use Rattle.share_graph.specs.Coherent.{IsCoherent};
ghost use Rattle.share_graph.specs.Known.{HasGrant, KnowsGiver};
ghost use Rattle.report_desk.specs.Reasons.{ChangesBase, IsGivenAs, IsGivenBy, IsPassed, IsPassing};
ghost use Rattle.host_base.specs.declared.ids.GrantId as the_id;
ghost use Rattle.perm_roles.specs.declared.roles.Base.TheVariants as base;
ghost use Rattle.report_desk.specs.Showing.{HasRoleOf, IsTitleOf};

use host_base::{GrainId, GrantId, Memory};
use perm_roles::{Assignment, Base};
use plain_data::Name;
use share_graph::{Giver, Tables, Target, account as find_account, app_of, grant as find_grant};

/// Whom a grant was given by: an account, by its handle, another grant, or the site.
#[derive(Drop)]
pub enum GivenBy {
    Account(Name),
    Grant(GrantId),
    Site,
}

/// What the assignment of a grant starts from: the first default role, every permission, or the role of this title.
#[derive(Drop)]
pub enum GivenAs {
    NoRole,
    AllAccess,
    Role(Name),
}

/// A grant that passes something on: who gave it, to whom, and as what, and whether permissions were added to that or
/// removed.
#[derive(Drop)]
pub struct Passing {
    pub grant: GrantId,
    pub by: GivenBy,
    pub target: Target,
    pub base: GivenAs,
    pub changed: bool,
}

// A giver, as it is shown.
fn given_by(tables: &Tables, giver: Giver) -> Result<GivenBy, Memory>
    requires { KnowsGiver tables.now giver }
    ensures { IfOk result (IsGivenBy tables.now giver) }
{
    match giver {
        Giver::Account(num) => {
            let Some(account) = find_account(tables, num) else {
                unreachable!()
            };
            let handle = account.handle.clone()?;
            Ok(GivenBy::Account(handle))
        }
        Giver::Grant(num) => Ok(GivenBy::Grant(num)),
        Giver::Site { .. } => Ok(GivenBy::Site),
    }
}

// The title of the role at a place of the list that the application of a grain has.
fn title_of(tables: &Tables, grain: GrainId, role: u16) -> Result<Name, Memory>
    requires { HasRoleOf tables.now grain (base.Role role) }
    ensures { IfOk result (IsTitleOf tables.now grain role) }
{
    let Some(app) = app_of(tables, grain) else {
        unreachable!()
    };
    let Some(role) = app.manifest.roles.as_slice().get(usize::from(role)) else {
        unreachable!()
    };
    let title = role.title.clone()?;
    Ok(title)
}

// What an assignment on a grain starts from, as it is shown.
fn given_as(tables: &Tables, grain: GrainId, base: Base) -> Result<GivenAs, Memory>
    requires { HasRoleOf tables.now grain base }
    ensures { IfOk result (IsGivenAs tables.now grain base) }
{
    match base {
        Base::NoRole => Ok(GivenAs::NoRole),
        Base::AllAccess => Ok(GivenAs::AllAccess),
        Base::Role(role) => Ok(GivenAs::Role(title_of(tables, grain, role)?)),
    }
}

// Whether an assignment adds or removes a permission.
fn changes_base(assignment: &Assignment) -> bool
    ensures { IsTrue result ↔ ChangesBase assignment.now }
{
    assignment.add.len() > 0 || assignment.remove.len() > 0
}

/// A grant that is there, as it is shown.
pub fn passing_of(tables: &Tables, num: GrantId) -> Result<Passing, Memory>
    requires coherent { IsCoherent tables.now }
    requires there { HasGrant tables.now num }
    ensures { IfOk result (IsPassing tables.now num) }
{
    let Some(grant) = find_grant(tables, num) else {
        unreachable!()
    };
    let by = given_by(tables, grant.giver)?;
    let base = given_as(tables, grant.grain, grant.assignment.base)?;
    Ok(Passing {
        grant: num,
        by,
        target: grant.target,
        base,
        changed: changes_base(&grant.assignment),
    })
}

// The grant by which a step follows, if it does by one, as it is shown.
pub(crate) fn passed_by(tables: &Tables, by: Option<GrantId>) -> Result<Option<Passing>, Memory>
    requires coherent { IsCoherent tables.now }
    requires there { (num : the_id.GrantId) → by ≡ Some num → HasGrant tables.now num }
    ensures { IfOk result (IsPassed tables.now by) }
{
    match by {
        None => Ok(None),
        Some(num) => Ok(Some(passing_of(tables, num)?)),
    }
}
