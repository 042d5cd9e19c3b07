//! Roles, when their lists of booleans become sets.

ghost use Rattle.std.specs.Prelude.{◌≡◌, ◌<◌, ◌≤◌, ◌++◌, ◌∷◌, [], length, map, Some, None, MatchOption, IfSome, IfOk, OnOk, IfErr, option_map};
ghost use Rattle.app_manifest.specs.Fault.{OnFault};
ghost use Rattle.app_manifest.specs.Checks.{long_set};
ghost use Rattle.app_manifest.specs.Manifest.{role_of_draft};
ghost use Rattle.app_manifest.specs.ReadParts.{role_draft};

use crate::fault::{ManifestError, ManifestFault};
use crate::read::ReadRole;
use perm_roles::{PermSet, Role};
use std::alloc::{AllocError, Global};

// The role with its set, unless its list is longer than a number of permissions.
fn role_with_set(role: ReadRole, count: u8) -> Option<Role>
    requires { count ≤ 64 }
    ensures long { MatchOption result (count < length role.list.items) (λ _. length role.list.items ≤ count) }
    ensures role { IfSome result (λ made. made ≡ role_of_draft (role_draft role)) }
{
    let ReadRole {
        title,
        verb,
        list,
        default,
        obsolete,
    } = role;
    let perms = PermSet::from_list(&list, count).ok()?;
    Some(Role {
        title,
        verb,
        perms,
        default,
        obsolete,
    })
}

// Appends a role.
fn push_role(roles: &mut Vec<Role>, role: Role) -> Result<(), AllocError>
    ensures { OnOk result (roles.new.items ≡ roles.old.items ++ role ∷ []) }
{
    roles.push(role)?;
    Ok(())
}

/// The roles with their sets, or the first whose list is longer than a number of permissions.
pub(crate) fn roles_from(
    alloc: Global,
    read: Vec<ReadRole>,
    count: u8,
) -> Result<Vec<Role>, ManifestError>
    requires { count ≤ 64 }
    ensures ok { IfOk result (λ _. long_set count (map role_draft read.items) ≡ None) }
    ensures roles { IfOk result (λ roles. roles.items ≡ map role_of_draft (map role_draft read.items)) }
    ensures fault { IfErr result (λ error. OnFault error
        (λ fault. option_map ManifestFault.LongSet (long_set count (map role_draft read.items)) ≡ Some fault)) }
{
    let mut roles = Vec::new(alloc);
    for read_role in read {
        let Some(role) = role_with_set(read_role, count) else {
            return Err(ManifestError::Fault(ManifestFault::LongSet(roles.len())));
        };
        push_role(&mut roles, role)?;
    }
    Ok(roles)
}
