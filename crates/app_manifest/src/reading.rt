//! The manifest that bytes state.

ghost use Rattle.std.specs.Prelude.{◌≡◌, Some, None, Ok, Err, IfOk, IfErr};
ghost use Rattle.serde_json.specs.View.{view};
ghost use Rattle.app_manifest.specs.Fault.{OnFault};
ghost use Rattle.app_manifest.specs.Checks.{too_many, whole_fault};
ghost use Rattle.app_manifest.specs.Manifest.{manifest_of};
ghost use Rattle.app_manifest.specs.Stated.{checked, object_of, stated_manifest};
ghost use Rattle.app_manifest.specs.ReadParts.{manifest_draft};

use crate::checks::{double_name, second_default};
use crate::fault::{ManifestError, ManifestFault};
use crate::manifest::Manifest;
use crate::read::{ReadManifest, read_manifest_from};
use crate::roles::roles_from;
use plain_data::List;
use serde_json::Value;
use std::alloc::Global;

// The most that a manifest may have.
const PERMISSION_LIMIT: usize = 64;

const ROLE_LIMIT: usize = 32;

const REQUEST_LIMIT: usize = 16;

/// The manifest that bytes state.
///
/// A fault is the first in the order of `ManifestFault`. Want of memory may come in place of any
/// answer.
pub fn manifest_from(alloc: Global, bytes: &[u8]) -> Result<Manifest, ManifestError>
    ensures ok { IfOk result (λ manifest. stated_manifest bytes.now ≡ Ok manifest) }
    ensures fault { IfErr result (λ error. OnFault error (λ fault. stated_manifest bytes.now ≡ Err fault)) }
{
    let value = object_from(alloc, bytes)?;
    let read = read_manifest_from(alloc, &value)?;
    checked_manifest(alloc, read)
}

fn object_from(alloc: Global, bytes: &[u8]) -> Result<Value, ManifestError>
    ensures object { IfOk result (λ value. object_of bytes.now ≡ Some (view value)) }
    ensures fault { IfErr result (λ error. OnFault error
        (λ fault. (fault ≡ ManifestFault.NotJson) × (object_of bytes.now ≡ None))) }
{
    match Value::from_slice(alloc, bytes) {
        Ok(value) => {
            if value.is_object() {
                Ok(value)
            } else {
                Err(ManifestError::Fault(ManifestFault::NotJson))
            }
        }
        Err(error) => {
            if error.is_memory() {
                Err(ManifestError::Memory)
            } else {
                Err(ManifestError::Fault(ManifestFault::NotJson))
            }
        }
    }
}

fn checked_manifest(alloc: Global, read: ReadManifest) -> Result<Manifest, ManifestError>
    ensures ok { IfOk result (λ _. whole_fault (manifest_draft read) ≡ None) }
    ensures manifest { IfOk result (λ manifest. manifest ≡ manifest_of (manifest_draft read)) }
    ensures fault { IfErr result (λ error. OnFault error
        (λ fault. whole_fault (manifest_draft read) ≡ Some fault)) }
{
    if let Some(kind) = too_many(&read) {
        return Err(ManifestError::Fault(ManifestFault::TooMany(kind)));
    }
    if let Some(place) = double_name(&read.permissions) {
        return Err(ManifestError::Fault(ManifestFault::DoubleName(place)));
    }
    let count = read.permissions.len() as u8;
    let roles = roles_from(alloc, read.roles, count)?;
    if let Some(place) = second_default(&roles) {
        return Err(ManifestError::Fault(ManifestFault::TwoDefaults(place)));
    }
    Ok(Manifest {
        title: read.title,
        version: read.version,
        permissions: List::new(read.permissions),
        roles: List::new(roles),
        match_requests: List::new(read.match_requests),
    })
}

// The first list that is too long.
fn too_many(read: &ReadManifest) -> Option<u8>
    ensures { result ≡ too_many (manifest_draft read.now) }
{
    if read.permissions.len() > PERMISSION_LIMIT {
        return Some(1);
    }
    if read.roles.len() > ROLE_LIMIT {
        return Some(2);
    }
    if read.match_requests.len() > REQUEST_LIMIT {
        return Some(3);
    }
    None
}
