//! What an application says of itself: its permissions, its roles and what it offers.

ghost use Rattle.std.specs.Prelude.{◌≡◌};

use perm_roles::Role;
use plain_data::{List, Name};
use powerbox_match::Descriptor;
use std::alloc::AllocError;

/// A permission of an application. Its position in the list is what sets speak of.
#[derive(Debug)]
pub struct PermissionDef {
    pub name: Name,
    pub title: Name,
    pub description: Name,
    pub obsolete: bool,
}

// Written by hand: a proof then has one call wherever one is let go.
impl Drop for PermissionDef {
    fn drop(self) {
        let PermissionDef {
            name: _,
            title: _,
            description: _,
            obsolete: _,
        } = self;
    }
}

impl Clone for PermissionDef {
    ghost is_clone = { λ permission copy. copy ≡ permission };

    fn clone(&self) -> Result<PermissionDef, AllocError> {
        Ok(PermissionDef {
            name: self.name.clone()?,
            title: self.title.clone()?,
            description: self.description.clone()?,
            obsolete: self.obsolete,
        })
    }
}

/// The permissions of an application.
pub type Permissions = List<PermissionDef>;

/// The roles of an application.
pub type Roles = List<Role>;

/// What an application offers.
pub type Descriptors = List<Descriptor>;

/// What an application says of itself.
pub struct Manifest {
    pub title: Name,
    pub version: u32,
    pub permissions: Permissions,
    pub roles: Roles,
    pub match_requests: Descriptors,
}

impl Drop for Manifest {
    fn drop(self) {
        let Manifest {
            title: _,
            version: _,
            permissions: _,
            roles: _,
            match_requests: _,
        } = self;
    }
}

impl Clone for Manifest {
    ghost is_clone = { λ manifest copy. copy ≡ manifest };

    fn clone(&self) -> Result<Manifest, AllocError> {
        Ok(Manifest {
            title: self.title.clone()?,
            version: self.version,
            permissions: self.permissions.clone()?,
            roles: self.roles.clone()?,
            match_requests: self.match_requests.clone()?,
        })
    }
}
