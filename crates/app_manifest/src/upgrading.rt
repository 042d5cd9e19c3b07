//! When a manifest may take the place of another.

ghost use Rattle.std.specs.Prelude.{◌≡◌, ◌↔◌, ℕ, Some, None, IfOk, IfErr, IsTrue};
ghost use Rattle.perm_roles.specs.PermSet.{Has};
ghost use Rattle.app_manifest.specs.Upgrade.{has_name_at, lost_name, upgrade_fault, GivesNoLess, IsInRole, StillFits};

use crate::fault::ManifestFault;
use crate::manifest::{Manifest, PermissionDef};
use perm_roles::{PermSet, Role, default_set};

/// The new manifest, where it may take the place of the old one: each old permission's name stands
/// at its position, and there are no fewer roles.
///
/// So each set of permissions and each number of a role that fitted the old one fits the new one.
#[tactic(auto, using(crate::proofs::Kept::still_fits))]
pub fn upgrade(old: &Manifest, new: Manifest) -> Result<Manifest, ManifestFault>
    ensures same { IfOk result (λ manifest. manifest ≡ new) }
    ensures ok { IfOk result (λ _. upgrade_fault old.now new ≡ None) }
    ensures fault { IfErr result (λ fault. upgrade_fault old.now new ≡ Some fault) }
    ensures still_fits { IfOk result (λ manifest. StillFits old.now manifest) }
{
    if let Some(place) = lost_name(old.permissions.as_slice(), new.permissions.as_slice()) {
        return Err(ManifestFault::LostName(place));
    }
    let count = new.roles.as_slice().len();
    if count < old.roles.as_slice().len() {
        return Err(ManifestFault::LostRole(count));
    }
    Ok(new)
}

fn lost_name(old: &[PermissionDef], new: &[PermissionDef]) -> Option<usize>
    ensures { result ≡ lost_name old.now new.now }
{
    for (place, permission) in old.iter().enumerate() {
        if !has_name_at(new, place, permission.name.as_str()) {
            return Some(place);
        }
    }
    None
}

fn has_name_at(permissions: &[PermissionDef], place: usize, name: &str) -> bool
    ensures { result ≡ has_name_at permissions.now place name.now }
{
    match permissions.get(place) {
        Some(permission) => name == permission.name.as_str(),
        None => false,
    }
}

// Whether the role at a place has every position of a set.
fn has_at(roles: &[Role], place: usize, set: &PermSet) -> bool
    ensures { IsTrue result ↔ ((p : ℕ) → Has set.now p → IsInRole roles.now place p) }
{
    match roles.get(place) {
        Some(role) => role.perms.contains(set),
        None => set.is_empty(),
    }
}

// Whether each role has at its place what it had.
fn keeps_roles(old: &[Role], new: &[Role]) -> bool
    ensures { IsTrue result ↔ ((n p : ℕ) → IsInRole old.now n p → IsInRole new.now n p) }
{
    for (place, role) in old.iter().enumerate() {
        if !has_at(new, place, &role.perms) {
            return false;
        }
    }
    true
}

/// Whether every assignment gives by the new manifest what it gave by the old one.
pub fn gives_no_less(old: &Manifest, new: &Manifest) -> bool
    ensures { IsTrue result ↔ GivesNoLess old.now new.now }
{
    let (before, after) = (old.roles.as_slice(), new.roles.as_slice());
    old.permissions.as_slice().len() <= new.permissions.as_slice().len()
        && default_set(after).contains(&default_set(before))
        && keeps_roles(before, after)
}
