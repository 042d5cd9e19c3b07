//! What a JSON value states field by field, before its lists are compared.

ghost use Rattle.std.specs.Prelude.{◌≡◌, Ok, Err, IfOk, IfErr};
ghost use Rattle.serde_json.specs.View.{view};
ghost use Rattle.app_manifest.specs.Fault.{OnFault};
ghost use Rattle.app_manifest.specs.Draft.{draft_of};
ghost use Rattle.app_manifest.specs.ReadParts.{manifest_draft};

use crate::fault::{ManifestError, ManifestFault};
use crate::fields::{title_from, version_from};
use crate::lists::{permissions_from, read_roles_from, requests_from};
use crate::manifest::PermissionDef;
use plain_data::Name;
use powerbox_match::Descriptor;
use serde_json::Value;
use std::alloc::Global;

/// A role as it was read, its set still a list of booleans.
#[derive(Drop)]
pub(crate) struct ReadRole {
    pub title: Name,
    pub verb: Name,
    pub list: Vec<bool>,
    pub default: bool,
    pub obsolete: bool,
}

/// A manifest as it was read.
#[derive(Drop)]
pub(crate) struct ReadManifest {
    pub title: Name,
    pub version: u32,
    pub permissions: Vec<PermissionDef>,
    pub roles: Vec<ReadRole>,
    pub match_requests: Vec<Descriptor>,
}

pub(crate) fn read_manifest_from(
    alloc: Global,
    value: &Value,
) -> Result<ReadManifest, ManifestError>
    ensures ok { IfOk result (λ read. draft_of (view value.now) ≡ Ok (manifest_draft read)) }
    ensures fault { IfErr result (λ error. OnFault error (λ fault. draft_of (view value.now) ≡ Err fault)) }
{
    let Some(title) = title_from(alloc, value.get("title"))? else {
        return Err(ManifestError::Fault(ManifestFault::BadField(1)));
    };
    let Some(version) = version_from(value.get("version")) else {
        return Err(ManifestError::Fault(ManifestFault::BadField(2)));
    };
    let Some(permissions) = permissions_from(alloc, value.get("permissions"))? else {
        return Err(ManifestError::Fault(ManifestFault::BadField(3)));
    };
    let Some(roles) = read_roles_from(alloc, value.get("roles"))? else {
        return Err(ManifestError::Fault(ManifestFault::BadField(4)));
    };
    let Some(match_requests) = requests_from(alloc, value.get("matchRequests"))? else {
        return Err(ManifestError::Fault(ManifestFault::BadField(5)));
    };
    Ok(ReadManifest {
        title,
        version,
        permissions,
        roles,
        match_requests,
    })
}
