//! The applications.

ghost use Rattle.std.specs.Prelude.{◌≡◌, IfOk, map};
ghost use Rattle.std.specs.List.{AllZip};
ghost use Rattle.desk_base.specs.Outcomes.{IsAnswered};
ghost use Rattle.desk_base.specs.Terms.{IsOne, IsWellFormed};
ghost use Rattle.listings.specs.Commands.{Asks};
ghost use Rattle.listings.specs.Lines.{AreAppLines, IsAppLine, role_line};

use crate::line::{AppLine, AppLines, RoleLine};
use crate::page::rows_behind;
use app_manifest::PermissionDef;
use desk_base::caller_account;
use host_base::{AppId, Memory, Names};
use perm_roles::Role;
use plain_data::List;
use share_graph::{App, Caller, DeskFault, State};
use std::alloc::Global;

// The names of permissions.
fn names_of(alloc: Global, permissions: &[PermissionDef]) -> Result<Names, Memory>
    ensures { IfOk result (λ names. names ≡ map (λ permission. permission.name) permissions.now) }
{
    let mut names = Vec::new(alloc);
    for permission in permissions {
        names.push(permission.name.clone()?)?;
    }
    Ok(Names::new(names))
}

// A line of each role.
fn roles_of(alloc: Global, roles: &[Role]) -> Result<List<RoleLine>, Memory>
    ensures { IfOk result (λ lines. lines ≡ map role_line roles.now) }
{
    let mut lines = Vec::new(alloc);
    for role in roles {
        lines.push(RoleLine {
            title: role.title.clone()?,
            obsolete: role.obsolete,
        })?;
    }
    Ok(List::new(lines))
}

// The line of an application.
fn line_of(alloc: Global, app: &App) -> Result<AppLine, Memory>
    ensures { IfOk result (IsAppLine app.now) }
{
    let title = app.manifest.title.clone()?;
    let permissions = names_of(alloc, app.manifest.permissions.as_slice())?;
    let roles = roles_of(alloc, app.manifest.roles.as_slice())?;
    Ok(AppLine {
        app: app.num,
        title,
        version: app.manifest.version,
        permissions,
        roles,
    })
}

// A line of each application.
fn lines_of(alloc: Global, apps: &[App]) -> Result<AppLines, Memory>
    ensures { IfOk result (AllZip IsAppLine apps.now) }
{
    let mut lines = Vec::new(alloc);
    for app in apps {
        lines.push(line_of(alloc, app)?)?;
    }
    Ok(List::new(lines))
}

/// The applications behind a number, by number: a page of them, for each account that asks.
#[tactic(auto, using(crate::proofs::OneRows::asks_one))]
pub(crate) fn apps(
    alloc: Global,
    state: &State,
    caller: &Caller,
    after: AppId,
) -> Result<AppLines, DeskFault>
    requires formed { IsWellFormed state.now }
    ensures row { IsAnswered (Asks state.now caller.now) (AreAppLines state.now.tables after.0) result }
    ensures one { IsOne (Asks state.now caller.now) }
{
    if let Err(refusal) = caller_account(state, caller) {
        return Err(DeskFault::Refused(refusal));
    }
    let page = rows_behind(state.tables.apps.as_slice(), after.0);
    let lines = lines_of(alloc, page)?;
    Ok(lines)
}
