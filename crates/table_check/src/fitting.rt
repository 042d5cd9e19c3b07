ghost use Rattle.std.specs.Prelude.{◌≡◌, ◌≤◌, ◌↔◌, IsTrue, All, Some, None, true, length};
ghost use Rattle.app_manifest.specs.Checks.{double_name, second_that};
ghost use Rattle.app_manifest.specs.Text.{is_permission_name};
ghost use Rattle.perm_roles.specs.PermSet.{IsWithin};
ghost use Rattle.share_graph.specs.Expiry.{IsExpiry};
ghost use Rattle.share_graph.specs.Fitting.{IsSoundManifest, SetFits, IsAssignmentFor, AssignmentFits, HolderSetFits, NeedSetFits, SetsFit, TokenFits, SharesWell, IsReference};

use app_manifest::{Manifest, PermissionDef, double_name, is_permission_name, second_default};
use host_base::{Digest, GrainId};
use perm_roles::{Assignment, PermSet, Role, is_listed};
use share_graph::{Grant, Need, Node, Saved, Tables, Target, app_of, grant as find_grant};

fn are_formed(permissions: &[PermissionDef]) -> bool
    ensures { IsTrue result ↔ All (λ def. is_permission_name def.name ≡ true) permissions.now }
{
    permissions
        .iter()
        .all(|def| is_permission_name(def.name.as_str()))
}

fn names_differ(permissions: &[PermissionDef]) -> bool
    ensures { IsTrue result ↔ (double_name permissions.now ≡ None) }
{
    double_name(permissions).is_none()
}

fn roles_fit(roles: &[Role], permissions: usize) -> bool
    ensures { IsTrue result ↔ All (λ role. IsWithin role.perms permissions) roles.now }
{
    roles.iter().all(|role| role.perms.fits(permissions))
}

fn has_one_default(roles: &[Role]) -> bool
    ensures { IsTrue result ↔ (second_that (λ role. role.default) roles.now ≡ None) }
{
    second_default(roles).is_none()
}

/// Whether a manifest is within its limits, with names and sets that fit.
pub fn manifest_fits(manifest: &Manifest) -> bool
    ensures { IsTrue result ↔ IsSoundManifest manifest.now }
{
    let permissions = manifest.permissions.as_slice();
    let roles = manifest.roles.as_slice();
    permissions.len() <= 64
        && roles.len() <= 32
        && manifest.match_requests.as_slice().len() <= 16
        && are_formed(permissions)
        && names_differ(permissions)
        && roles_fit(roles, permissions.len())
        && has_one_default(roles)
}

fn is_within_manifest(set: &PermSet, manifest: &Manifest) -> bool
    ensures { IsTrue result ↔ IsWithin set.now (length manifest.now.permissions) }
{
    set.fits(manifest.permissions.as_slice().len())
}

fn set_fits(tables: &Tables, num: GrainId, set: &PermSet) -> bool
    ensures { IsTrue result ↔ SetFits tables.now num set.now }
{
    match app_of(tables, num) {
        None => false,
        Some(app) => is_within_manifest(set, &app.manifest),
    }
}

fn fits_manifest(manifest: &Manifest, assignment: &Assignment) -> bool
    ensures { IsTrue result ↔ IsAssignmentFor manifest.now assignment.now }
{
    assignment.fits(manifest.permissions.as_slice().len())
        && is_listed(manifest.roles.as_slice(), assignment.base)
}

fn assignment_fits(tables: &Tables, grant: &Grant) -> bool
    ensures { IsTrue result ↔ AssignmentFits tables.now grant.now }
{
    match app_of(tables, grant.grain) {
        None => false,
        Some(app) => fits_manifest(&app.manifest, &grant.assignment),
    }
}

fn holder_set_fits(tables: &Tables, holder: Node, set: &PermSet) -> bool
    ensures { IsTrue result ↔ HolderSetFits tables.now holder set.now }
{
    match holder {
        Node::User(num, _) => set_fits(tables, num, set),
        Node::Grant(num) => match find_grant(tables, num) {
            None => false,
            Some(row) => set_fits(tables, row.grain, set),
        },
    }
}

fn need_set_fits(tables: &Tables, need: &Need) -> bool
    ensures { IsTrue result ↔ NeedSetFits tables.now need.now }
{
    match need {
        Need::PermissionsHeld { holder, set } => holder_set_fits(tables, *holder, set),
        Need::TokenValid(_) => true,
        Need::UserIsAdmin(_) => true,
    }
}

fn need_sets_fit(tables: &Tables, needs: &[Need]) -> bool
    ensures { IsTrue result ↔ All (NeedSetFits tables.now) needs.now }
{
    needs.iter().all(|need| need_set_fits(tables, need))
}

/// Whether a grant's assignment and the sets of its needs fit their applications.
pub(crate) fn sets_fit(tables: &Tables, grant: &Grant) -> bool
    ensures { IsTrue result ↔ SetsFit tables.now grant.now }
{
    assignment_fits(tables, grant) && need_sets_fit(tables, grant.needs.as_slice())
}

fn token_fits(target: Target, digest: &Option<Digest>) -> bool
    ensures { IsTrue result ↔ TokenFits target digest.now }
{
    match target {
        Target::Bearer { .. } => digest.is_some(),
        Target::Claim(_) => digest.is_some(),
        Target::User(_) => digest.is_none(),
        Target::Grain(_) => digest.is_none(),
    }
}

fn is_expiry(expires: Option<u64>) -> bool
    ensures { IsTrue result ↔ IsExpiry expires }
{
    match expires {
        Some(end) => end > 0,
        None => true,
    }
}

/// Whether a grant has a token where it has to, at most eight needs, and an expiry that a grant can have.
pub(crate) fn shares_well(grant: &Grant) -> bool
    ensures { IsTrue result ↔ SharesWell grant.now }
{
    token_fits(grant.target, &grant.digest)
        && grant.needs.as_slice().len() <= 8
        && is_expiry(grant.expires)
}

fn is_claimed_by(grant: &Grant, holder: GrainId) -> bool
    ensures { IsTrue result ↔ (grant.now.target ≡ Target.Grain holder) }
{
    grant.target == Target::Grain(holder)
}

/// Whether a saved reference is to a grant that its holder claimed.
pub(crate) fn is_reference(tables: &Tables, saved: &Saved) -> bool
    ensures { IsTrue result ↔ IsReference tables.now saved.now }
{
    match find_grant(tables, saved.grant) {
        None => false,
        Some(row) => is_claimed_by(row, saved.holder),
    }
}
