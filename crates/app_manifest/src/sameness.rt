//! When two manifests say the same.

ghost use Rattle.std.specs.Prelude.{◌≡◌, ◌↔◌, IsTrue};

use crate::manifest::{Manifest, PermissionDef};
use perm_roles::{PermSet, Role};
use powerbox_match::Descriptor;

/// A part of a manifest that is compared by all that it says.
trait Comparable {
    /// Whether it says exactly what the other one says.
    fn says_same(&self, other: &Self) -> bool
        ensures { IsTrue result ↔ (self.now ≡ other.now) };
}

impl Comparable for PermissionDef {
    fn says_same(&self, other: &PermissionDef) -> bool {
        self.name == other.name
            && self.title == other.title
            && self.description == other.description
            && self.obsolete == other.obsolete
    }
}

// Whether two sets have the same positions.
fn is_same_set(set: &PermSet, other: &PermSet) -> bool
    ensures { IsTrue result ↔ (set.now ≡ other.now) }
{
    set.contains(other) && other.contains(set)
}

impl Comparable for Role {
    fn says_same(&self, other: &Role) -> bool {
        self.title == other.title
            && self.verb == other.verb
            && is_same_set(&self.perms, &other.perms)
            && self.default == other.default
            && self.obsolete == other.obsolete
    }
}

impl Comparable for Descriptor {
    fn says_same(&self, other: &Descriptor) -> bool {
        self.is_same(other)
    }
}

// Whether two lists have the same parts, in the same order.
fn are_same<T: Comparable>(parts: &[T], others: &[T]) -> bool
    ensures { IsTrue result ↔ (parts.now ≡ others.now) }
{
    if parts.len() != others.len() {
        return false;
    }
    for (place, part) in parts.iter().enumerate() {
        if !part.says_same(&others[place]) {
            return false;
        }
    }
    true
}

impl Manifest {
    /// Whether it says exactly what the other one says, its version included.
    pub fn is_same(&self, other: &Manifest) -> bool
        ensures { IsTrue result ↔ (self.now ≡ other.now) }
    {
        self.title == other.title
            && self.version == other.version
            && are_same(self.permissions.as_slice(), other.permissions.as_slice())
            && are_same(self.roles.as_slice(), other.roles.as_slice())
            && are_same(
                self.match_requests.as_slice(),
                other.match_requests.as_slice(),
            )
    }
}
