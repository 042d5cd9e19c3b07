//! The faults of a manifest that lie between its parts.

ghost use Rattle.std.specs.Prelude.{◌≡◌};
ghost use Rattle.std.specs.List.{list_any};
ghost use Rattle.std.specs.Str.{bytes_eq};
ghost use Rattle.app_manifest.specs.Checks.{double_name, second_that};

use crate::manifest::PermissionDef;
use perm_roles::Role;

/// The first position whose name stands earlier.
pub fn double_name(permissions: &[PermissionDef]) -> Option<usize>
    ensures { result ≡ double_name permissions.now }
{
    for (place, permission) in permissions.iter().enumerate() {
        if is_named_in(&permissions[..place], permission.name.as_str()) {
            return Some(place);
        }
    }
    None
}

fn is_named_in(permissions: &[PermissionDef], name: &str) -> bool
    ensures { result ≡ list_any (λ earlier. bytes_eq name.now earlier.name) permissions.now }
{
    permissions
        .iter()
        .any(|permission| name == permission.name.as_str())
}

/// The position of the second role that is a default one.
pub fn second_default(roles: &[Role]) -> Option<usize>
    ensures { result ≡ second_that (λ role. role.default) roles.now }
{
    for (place, role) in roles.iter().enumerate() {
        if role.default && has_default(&roles[..place]) {
            return Some(place);
        }
    }
    None
}

fn has_default(roles: &[Role]) -> bool
    ensures { result ≡ list_any (λ role. role.default) roles.now }
{
    roles.iter().any(|role| role.default)
}
