//! Roles, assignments, and what an assignment gives.

ghost use Rattle.std.specs.Prelude.{◌≡◌, ◌↔◌, ◌⊎◌, ◌≤◌, ℕ, IsTrue, option_copied};
ghost use Rattle.std.specs.List.{find};
ghost use Rattle.perm_roles.specs.PermSet.{Has, IsWithin};
ghost use Rattle.perm_roles.specs.Roles.{HasNoFault, IsGiven, IsInBase, IsInDefault, IsInRoles};
ghost use Rattle.perm_roles.specs.declared.perm_set.PermSet.{PermSet};

use crate::perm_set::PermSet;
use plain_data::Name;

/// A named set of permissions that an application offers.
#[derive(Clone, Debug, Drop, PartialEq, Eq)]
pub struct Role {
    pub title: Name,
    pub verb: Name,
    pub perms: PermSet,
    pub default: bool,
    pub obsolete: bool,
}

/// What an assignment starts from.
#[derive(Clone, Copy, Debug, PartialEq, Eq)]
pub enum Base {
    /// The first default role, or nothing.
    NoRole,
    /// Every permission.
    AllAccess,
    /// The role at this place of the list, counted from 0.
    Role(u16),
}

/// Permissions that are given: those of the base and those added, without those removed.
#[derive(Clone, Copy, Debug, PartialEq, Eq)]
pub struct Assignment {
    pub base: Base,
    pub add: PermSet,
    pub remove: PermSet,
}

impl Assignment {
    /// Whether every position that is added or removed is below the count.
    pub fn fits(&self, count: usize) -> bool
        ensures { IsTrue result ↔ (IsWithin self.now.add count × IsWithin self.now.remove count) }
    {
        self.add.fits(count) && self.remove.fits(count)
    }

    /// The positions of the base and those added, without those removed.
    fn applied_to(&self, base: &PermSet) -> PermSet
        ensures { (p : ℕ) → Has result p ↔ ((Has base.now p ⊎ Has self.now.add p) × ¬ Has self.now.remove p) }
    {
        base.union(&self.add).minus(&self.remove)
    }
}

/// Whether the role that the base names is in the list; true of a base that names none.
pub fn is_listed(roles: &[Role], base: Base) -> bool
    ensures { IsTrue result ↔ IsInRoles roles.now base }
{
    match base {
        Base::Role(number) => usize::from(number) < roles.len(),
        Base::NoRole | Base::AllAccess => true,
    }
}

/// The permissions that an assignment gives, of this many that there are, where the roles, the count and the assignment have no fault. It looks at
/// no role but the one that the base names, or the default one.
pub fn granted(roles: &[Role], count: u8, assignment: &Assignment) -> PermSet
    requires { HasNoFault roles.now count assignment.now }
    ensures gives { IsGiven roles.now count assignment.now result }
    ensures within { IsWithin result count }

    // There is one answer.
    ensures one { (other : PermSet) → IsGiven roles.now count assignment.now other → other ≡ result }
{
    assignment.applied_to(&base_set(roles, count, assignment.base))
}

fn base_set(roles: &[Role], count: u8, base: Base) -> PermSet
    requires few { count ≤ 64 }
    requires listed { IsInRoles roles.now base }
    ensures { (p : ℕ) → Has result p ↔ IsInBase roles.now count base p }
{
    match base {
        Base::NoRole => default_set(roles),
        Base::AllAccess => PermSet::all(count),
        Base::Role(number) => roles[usize::from(number)].perms,
    }
}

/// What a base that names nothing starts from: the set of the first default role, or no permission.
pub fn default_set(roles: &[Role]) -> PermSet
    ensures { (p : ℕ) → Has result p ↔ IsInDefault roles.now p }
{
    match default_role(roles) {
        Some(role) => role.perms,
        None => PermSet::empty(),
    }
}

fn default_role(roles: &[Role]) -> Option<&Role>
    ensures { option_copied result ≡ find (λ role. role.default) roles.now }
{
    roles.iter().find(|role| role.default)
}
