//! What a grant that isn't there yet may add.

ghost use Rattle.std.specs.Prelude.{◌≡◌, ◌↔◌, Some, ℕ, IfSome, length};
ghost use Rattle.perm_roles.specs.PermSet.{Has};
ghost use Rattle.perm_roles.specs.Roles.{GivesPermission as AssignmentGives};
ghost use Rattle.share_graph.specs.declared.rows.App as the_app;
ghost use Rattle.share_graph.specs.Coherent.{IsCoherent};
ghost use Rattle.share_graph.specs.Fitting.{IsAssignmentFor, IsSoundManifest};
ghost use Rattle.share_graph.specs.Rows.{IsAppOf};
ghost use Rattle.region_work.specs.Starting.{IsMostOf};

use least_access::Held;
use least_access::table::{Table, holding};
use perm_roles::PermSet;
use share_graph::{App, Grant, Tables, app_of, source_of};

// What a grant gives by the application of its grain.
fn given_by(app: &App, grant: &Grant) -> PermSet
    requires manifest { IsSoundManifest app.now.manifest }
    requires assignment { IsAssignmentFor app.now.manifest grant.now.assignment }
    ensures { (p : ℕ) → Has result p ↔ AssignmentGives app.now.manifest.roles
        (length app.now.manifest.permissions) grant.now.assignment p }
{
    let count = app.manifest.permissions.as_slice().len() as u8;
    perm_roles::granted(app.manifest.roles.as_slice(), count, &grant.assignment)
}

/// The most that a new grant may add at its node: of what its source holds, what it gives.
pub(crate) fn offered(tables: &Tables, table: &Table, grant: &Grant) -> Option<Held>
    requires coherent { IsCoherent tables.now }
    requires fits { (app : the_app.App) → IsAppOf tables.now grant.now.grain app
        → IsAssignmentFor app.manifest grant.now.assignment }
    ensures { IfSome result (IsMostOf tables.now table.now.entries grant.now) }
{
    let from = source_of(grant)?;
    let app = app_of(tables, grant.grain)?;
    let held = holding(table, from);
    Some(Held {
        entry: held.entry,
        perms: held.perms.meet(&given_by(app, grant)),
    })
}
