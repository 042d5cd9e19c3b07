//! The shapes of fields: what the value under a key states.

ghost use Rattle.std.specs.Prelude.{◌≡◌, true, IfOk, IfSome, option_map};
ghost use Rattle.serde_json.specs.View.{view};
ghost use Rattle.share_graph.specs.Fresh.{is_handle};
ghost use Rattle.desk_bodies.specs.Fields as fields;

use app_manifest::{flags_from, title_from};
use host_base::{AccountId, Digest, GrainId, GrantId, digest_of};
use perm_roles::{Assignment, Base, PermSet};
use plain_data::{List, Name};
use powerbox_match::{Query, ShapeFault};
use serde_json::Value;
use share_graph::{Need, Needs, Node, Offer};
use std::alloc::{AllocError, Global};
use table_check::is_handle_name;

// The most booleans of a list that is taken as a set.
const SET_LIMIT: u8 = 64;

/// The name that a field states, or none where it is missing or not of the shape.
pub(crate) fn name_from(alloc: Global, value: Option<&Value>) -> Result<Option<Name>, AllocError>
    ensures { IfOk result (λ found. found ≡ fields.name_of (option_map (λ v. view v.now) value.entry)) }
{
    title_from(alloc, value)
}

/// The handle that a field states, or none where it is missing or not of the shape.
pub(crate) fn handle_from(alloc: Global, value: Option<&Value>) -> Result<Option<Name>, AllocError>
    ensures stated { IfOk result (λ found. found
        ≡ fields.handle_of (option_map (λ v. view v.now) value.entry)) }
    ensures form { IfOk result (λ found. IfSome found (λ name. is_handle name ≡ true)) }
{
    match name_from(alloc, value)? {
        Some(name) if is_handle_name(&name) => Ok(Some(name)),
        _ => Ok(None),
    }
}

/// The mark that a field states, or none where it is missing or not of the shape.
pub(crate) fn mark_from(value: Option<&Value>) -> Option<bool>
    ensures { result ≡ fields.mark_of (option_map (λ v. view v.now) value.entry) }
{
    value?.as_bool()
}

/// The digest of the token that a field states, or none where it is missing or not of the shape.
pub(crate) fn token_from(value: Option<&Value>) -> Option<Digest>
    ensures { result ≡ fields.token_of (option_map (λ v. view v.now) value.entry) }
{
    let token = value?.as_str()?;
    Some(digest_of(token.as_bytes()))
}

/// The tab that a field states or that isn't named where it is missing, or none where it is not of the shape.
pub(crate) fn tab_from(value: Option<&Value>) -> Option<Option<u64>>
    ensures { result ≡ fields.tab_of (option_map (λ v. view v.now) value.entry) }
{
    match value {
        Some(value) => Some(Some(value.as_u64()?)),
        None => Some(None),
    }
}

/// The expiry that a field states, in seconds from 1 on, or that isn't set where it is missing, or none where it is
/// not of the shape.
pub(crate) fn expiry_from(value: Option<&Value>) -> Option<Option<u64>>
    ensures { result ≡ fields.expiry_of (option_map (λ v. view v.now) value.entry) }
{
    let Some(value) = value else {
        return Some(None);
    };
    match value.as_u64()? {
        0 => None,
        end => Some(Some(end)),
    }
}

/// The number of 32 bits that a field states, or none where it is missing or not of the shape.
pub(crate) fn number_from(value: Option<&Value>) -> Option<u32>
    ensures { result ≡ fields.number_of (option_map (λ v. view v.now) value.entry) }
{
    let number = value.and_then(Value::as_u64)?;
    u32::try_from(number).ok()
}

/// The account that a field states or that isn't named where it is missing, or none where it is not of the shape.
pub(crate) fn member_from(value: Option<&Value>) -> Option<Option<AccountId>>
    ensures { result ≡ fields.member_of (option_map (λ v. view v.now) value.entry) }
{
    match value {
        Some(_) => Some(Some(AccountId(number_from(value)?))),
        None => Some(None),
    }
}

/// The number behind which a page is asked for, 0 where the field is missing, or none where it is not of the shape.
pub(crate) fn after_from(value: Option<&Value>) -> Option<u32>
    ensures { result ≡ fields.after_of (option_map (λ v. view v.now) value.entry) }
{
    match value {
        Some(_) => number_from(value),
        None => Some(0),
    }
}

/// The set of permissions that a field states, or none where it is missing or not of the shape.
pub(crate) fn permissions_from(
    alloc: Global,
    value: Option<&Value>,
) -> Result<Option<PermSet>, AllocError>
    ensures { IfOk result (λ found. found
        ≡ fields.permissions_of (option_map (λ v. view v.now) value.entry)) }
{
    let Some(list) = flags_from(alloc, value)? else {
        return Ok(None);
    };
    Ok(PermSet::from_list(&list, SET_LIMIT).ok())
}

// The same of a field, where a missing one is the empty set.
fn permissions_or_empty(alloc: Global, value: Option<&Value>) -> Result<Option<PermSet>, AllocError>
    ensures { IfOk result (λ found. found
        ≡ fields.permissions_or_empty (option_map (λ v. view v.now) value.entry)) }
{
    match value {
        Some(_) => permissions_from(alloc, value),
        None => Ok(Some(PermSet::empty())),
    }
}

// The base that a field states, which is no role where the field is missing, or none where it is not of the shape.
fn base_from(value: Option<&Value>) -> Option<Base>
    ensures { result ≡ fields.base_of (option_map (λ v. view v.now) value.entry) }
{
    let Some(value) = value else {
        return Some(Base::NoRole);
    };
    match value.as_str() {
        Some("none") => Some(Base::NoRole),
        Some("all") => Some(Base::AllAccess),
        Some(_) => None,
        None => Some(Base::Role(u16::try_from(value.as_u64()?).ok()?)),
    }
}

/// The assignment that a field states, which gives no role where the field is missing, or none where it is not of the shape.
pub(crate) fn assignment_from(
    alloc: Global,
    value: Option<&Value>,
) -> Result<Option<Assignment>, AllocError>
    ensures { IfOk result (λ found. found
        ≡ fields.assignment_of (option_map (λ v. view v.now) value.entry)) }
{
    let Some(value) = value else {
        return Ok(Some(Assignment {
            base: Base::NoRole,
            add: PermSet::empty(),
            remove: PermSet::empty(),
        }));
    };
    if !value.is_object() {
        return Ok(None);
    }
    let Some(base) = base_from(value.get("base")) else {
        return Ok(None);
    };
    let Some(add) = permissions_or_empty(alloc, value.get("add"))? else {
        return Ok(None);
    };
    let Some(remove) = permissions_or_empty(alloc, value.get("remove"))? else {
        return Ok(None);
    };
    Ok(Some(Assignment { base, add, remove }))
}

// Who has to hold permissions.
fn holder_from(value: &Value) -> Option<Node>
    ensures { result ≡ fields.holder_of (view value.now) }
{
    match value.get("grain") {
        Some(grain) => {
            let grain = GrainId(number_from(Some(grain))?);
            let account = AccountId(number_from(value.get("account"))?);
            Some(Node::User(grain, account))
        }
        None => Some(Node::Grant(GrantId(number_from(value.get("grant"))?))),
    }
}

// The need that permissions are held.
fn held_from(alloc: Global, value: &Value) -> Result<Option<Need>, AllocError>
    ensures { IfOk result (λ found. found ≡ fields.held_of (view value.now)) }
{
    let Some(holder) = holder_from(value) else {
        return Ok(None);
    };
    let Some(set) = permissions_from(alloc, value.get("permissions"))? else {
        return Ok(None);
    };
    Ok(Some(Need::PermissionsHeld { holder, set }))
}

// The need that a value states.
fn need_from(alloc: Global, value: &Value) -> Result<Option<Need>, AllocError>
    ensures { IfOk result (λ found. found ≡ fields.need_of (view value.now)) }
{
    if let Some(token) = value.get("token") {
        return Ok(number_from(Some(token)).map(GrantId).map(Need::TokenValid));
    }
    if let Some(held) = value.get("held") {
        return held_from(alloc, held);
    }
    let admin = number_from(value.get("admin")).map(AccountId);
    Ok(admin.map(Need::UserIsAdmin))
}

/// The needs that a field states, which are none where the field is missing, or nothing where it is not of the shape.
#[tactic(auto, using(app_manifest::proofs::Listed::each_of_more, app_manifest::proofs::Listed::each_of_none))]
pub(crate) fn needs_from(alloc: Global, value: Option<&Value>) -> Result<Option<Needs>, AllocError>
    ensures { IfOk result (λ found. found ≡ fields.needs_of (option_map (λ v. view v.now) value.entry)) }
{
    let Some(value) = value else {
        return Ok(Some(Needs::empty(alloc)));
    };
    let Some(items) = value.as_array() else {
        return Ok(None);
    };
    let mut list = Vec::new(alloc);
    for item in items {
        let Some(need) = need_from(alloc, item)? else {
            return Ok(None);
        };
        list.push(need)?;
    }
    Ok(Some(List::new(list)))
}

/// The query that a field states, or none where it is missing or not of the shape.
pub(crate) fn query_from(alloc: Global, value: Option<&Value>) -> Result<Option<Query>, AllocError>
    ensures { IfOk result (λ found. found ≡ fields.query_of (option_map (λ v. view v.now) value.entry)) }
{
    let Some(value) = value else {
        return Ok(None);
    };
    match powerbox_match::query_from(alloc, value) {
        Ok(query) => Ok(Some(query)),
        Err(ShapeFault::Memory) => Err(AllocError),
        Err(_) => Ok(None),
    }
}

/// The offer that a field states, or none where it is missing or not of the shape.
pub(crate) fn offer_from(value: Option<&Value>) -> Option<Offer>
    ensures { result ≡ fields.offer_of (option_map (λ v. view v.now) value.entry) }
{
    let value = value?;
    if let Some(grain) = value.get("grain") {
        return Some(Offer::Grain(GrainId(number_from(Some(grain))?)));
    }
    let site = value.get("site")?;
    let tag = site.get("tag").and_then(Value::as_u64)?;
    let item = number_from(site.get("item"))?;
    Some(Offer::Site { tag, item })
}
