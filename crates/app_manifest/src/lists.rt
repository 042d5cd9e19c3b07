//! The lists of a manifest that a JSON value states.

ghost use Rattle.std.specs.Prelude.{◌≡◌, Some, IfOk, map, option_map};
ghost use Rattle.serde_json.specs.View.{view};
ghost use Rattle.app_manifest.specs.Fields.{list_of};
ghost use Rattle.app_manifest.specs.Draft.{permission_of, role_of, request_of, requests_of};
ghost use Rattle.app_manifest.specs.ReadParts.{role_draft};

use crate::fields::{flag_from, flags_from, items_of, permission_name_from, text_from, title_from};
use crate::manifest::PermissionDef;
use crate::read::ReadRole;
use powerbox_match::{Descriptor, ShapeFault, descriptor_from};
use serde_json::Value;
use std::alloc::{AllocError, Global};

pub(crate) fn permissions_from(
    alloc: Global,
    value: Option<&Value>,
) -> Result<Option<Vec<PermissionDef>>, AllocError>
    ensures { IfOk result (λ found. option_map (λ list. list.items) found
        ≡ list_of permission_of (option_map (λ v. view v.now) value.entry)) }
{
    let Some(items) = items_of(value) else {
        return Ok(None);
    };
    let mut permissions = Vec::new(alloc);
    for item in items {
        let Some(permission) = permission_from(alloc, item)? else {
            return Ok(None);
        };
        permissions.push(permission)?;
    }
    Ok(Some(permissions))
}

fn permission_from(alloc: Global, value: &Value) -> Result<Option<PermissionDef>, AllocError>
    ensures { IfOk result (λ found. found ≡ permission_of (view value.now)) }
{
    let Some(name) = permission_name_from(alloc, value.get("name"))? else {
        return Ok(None);
    };
    let Some(title) = title_from(alloc, value.get("title"))? else {
        return Ok(None);
    };
    let Some(description) = text_from(alloc, value.get("description"))? else {
        return Ok(None);
    };
    let Some(obsolete) = flag_from(value.get("obsolete")) else {
        return Ok(None);
    };
    Ok(Some(PermissionDef {
        name,
        title,
        description,
        obsolete,
    }))
}

pub(crate) fn read_roles_from(
    alloc: Global,
    value: Option<&Value>,
) -> Result<Option<Vec<ReadRole>>, AllocError>
    ensures { IfOk result (λ found. option_map (λ list. map role_draft list.items) found
        ≡ list_of role_of (option_map (λ v. view v.now) value.entry)) }
{
    let Some(items) = items_of(value) else {
        return Ok(None);
    };
    let mut roles = Vec::new(alloc);
    for item in items {
        let Some(role) = read_role_from(alloc, item)? else {
            return Ok(None);
        };
        roles.push(role)?;
    }
    Ok(Some(roles))
}

fn read_role_from(alloc: Global, value: &Value) -> Result<Option<ReadRole>, AllocError>
    ensures { IfOk result (λ found. option_map role_draft found ≡ role_of (view value.now)) }
{
    let Some(title) = title_from(alloc, value.get("title"))? else {
        return Ok(None);
    };
    let Some(verb) = text_from(alloc, value.get("verbPhrase"))? else {
        return Ok(None);
    };
    let Some(list) = flags_from(alloc, value.get("permissions"))? else {
        return Ok(None);
    };
    let Some(default) = flag_from(value.get("default")) else {
        return Ok(None);
    };
    let Some(obsolete) = flag_from(value.get("obsolete")) else {
        return Ok(None);
    };
    Ok(Some(ReadRole {
        title,
        verb,
        list,
        default,
        obsolete,
    }))
}

pub(crate) fn requests_from(
    alloc: Global,
    value: Option<&Value>,
) -> Result<Option<Vec<Descriptor>>, AllocError>
    ensures { IfOk result (λ found. option_map (λ list. list.items) found
        ≡ requests_of (option_map (λ v. view v.now) value.entry)) }
{
    match value {
        Some(value) => descriptors_from(alloc, value),
        None => Ok(Some(Vec::new(alloc))),
    }
}

fn descriptors_from(alloc: Global, value: &Value) -> Result<Option<Vec<Descriptor>>, AllocError>
    ensures { IfOk result (λ found. option_map (λ list. list.items) found
        ≡ list_of request_of (Some (view value.now))) }
{
    let Some(items) = value.as_array() else {
        return Ok(None);
    };
    let mut descriptors = Vec::new(alloc);
    for item in items {
        let Some(descriptor) = request_from(alloc, item)? else {
            return Ok(None);
        };
        descriptors.push(descriptor)?;
    }
    Ok(Some(descriptors))
}

fn request_from(alloc: Global, value: &Value) -> Result<Option<Descriptor>, AllocError>
    ensures { IfOk result (λ found. found ≡ request_of (view value.now)) }
{
    match descriptor_from(alloc, value) {
        Ok(descriptor) => Ok(Some(descriptor)),
        Err(ShapeFault::Memory) => Err(AllocError),
        Err(_) => Ok(None),
    }
}
