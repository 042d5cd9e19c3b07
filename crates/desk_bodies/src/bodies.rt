//! The bodies of the desk's routes, and of the routes of a running grain.

ghost use Rattle.std.specs.Prelude.{◌≡◌, true, IfOk};
ghost use Rattle.share_graph.specs.Fitting.{IsSoundManifest};
ghost use Rattle.share_graph.specs.Fresh.{is_handle};
ghost use Rattle.desk_bodies.specs.Answers.{Answers};
ghost use Rattle.desk_bodies.specs.Bodies as bodies;

use crate::fault::BodyFault;
use crate::fields::{
    after_from, assignment_from, expiry_from, handle_from, mark_from, member_from, name_from,
    needs_from, number_from, offer_from, permissions_from, query_from, tab_from, token_from,
};
use crate::object::{field, object_from, text_of};
use app_manifest::{Manifest, ManifestError, manifest_from};
use host_base::{AccountId, AppId, Digest, GrantId};
use perm_roles::{Assignment, PermSet};
use plain_data::Name;
use powerbox_match::Query;
use share_graph::{Needs, Offer};
use std::alloc::Global;

/// The fields of a new account.
#[derive(Drop)]
pub struct AccountFields {
    pub handle: Name,
    pub name: Name,
}

/// The fields of a new grain.
#[derive(Drop)]
pub struct GrainFields {
    pub app: AppId,
    pub title: Name,
}

/// The fields of a grant to an account.
#[derive(Drop)]
pub struct ShareFields {
    pub to: AccountId,
    pub assignment: Assignment,
    pub needs: Needs,
    /// The moment at which it ends, in seconds from 1 on, or none where it doesn't end by itself.
    pub expires: Option<u64>,
}

/// The fields of a new link or token.
#[derive(Drop)]
pub struct TokenFields {
    pub assignment: Assignment,
    pub needs: Needs,
    /// The moment at which it ends, in seconds from 1 on, or none where it doesn't end by itself.
    pub expires: Option<u64>,
}

/// The fields of a new token that a bearer hands on.
#[derive(Drop)]
pub struct ChildFields {
    pub for_sharing: bool,
    pub assignment: Assignment,
    pub needs: Needs,
    /// The moment at which it ends, in seconds from 1 on, or none where it doesn't end by itself.
    pub expires: Option<u64>,
}

/// The fields of a choice.
#[derive(Drop)]
pub struct ChooseFields {
    pub offer: Offer,
    pub query: Query,
    pub assignment: Assignment,
}

/// The fields of a claim.
#[derive(Drop)]
pub struct ClaimFields {
    pub token: Digest,
    pub permissions: PermSet,
}

/// What the curator of a collection asks for.
#[derive(Drop)]
pub struct CollectFields {
    /// The link by which it lists a grain.
    pub link: GrantId,
    /// The member that is to get its share, or none where all are to.
    pub member: Option<AccountId>,
}

/// The fields of a reference that is to be saved.
#[derive(Drop)]
pub struct SaveFields {
    pub handle: u32,
    pub label: Name,
}

/// The handle and the name of a new account.
pub fn account_fields(alloc: Global, body: &[u8]) -> Result<AccountFields, BodyFault>
    ensures stated { Answers (bodies.account_body body.now) result }
    ensures form { IfOk result (λ fields. is_handle fields.handle ≡ true) }
{
    let object = field(0, object_from(alloc, text_of(body))?)?;
    let handle = field(1, handle_from(alloc, object.get("handle"))?)?;
    let name = field(2, name_from(alloc, object.get("name"))?)?;
    Ok(AccountFields { handle, name })
}

/// The mark that an account is to have.
pub fn mark_field(alloc: Global, body: &[u8]) -> Result<bool, BodyFault>
    ensures stated { Answers (bodies.mark_body body.now) result }
{
    let object = field(0, object_from(alloc, text_of(body))?)?;
    field(1, mark_from(object.get("on")))
}

/// The application and the title of a new grain.
pub fn grain_fields(alloc: Global, body: &[u8]) -> Result<GrainFields, BodyFault>
    ensures stated { Answers (bodies.grain_body body.now) result }
{
    let object = field(0, object_from(alloc, text_of(body))?)?;
    let app = field(1, number_from(object.get("app")).map(AppId))?;
    let title = field(2, name_from(alloc, object.get("title"))?)?;
    Ok(GrainFields { app, title })
}

/// The tab to open for, or none where the body names none.
pub fn tab_field(alloc: Global, body: &[u8]) -> Result<Option<u64>, BodyFault>
    ensures stated { Answers (bodies.tab_body body.now) result }
{
    let object = field(0, object_from(alloc, text_of(body))?)?;
    field(1, tab_from(object.get("tab")))
}

/// Nothing: the body only has to be an object.
pub fn no_fields(alloc: Global, body: &[u8]) -> Result<(), BodyFault>
    ensures stated { Answers (bodies.plain_body body.now) result }
{
    field(0, object_from(alloc, text_of(body))?)?;
    Ok(())
}

/// The manifest that the whole body is. It is one that an application can be added with.
pub fn manifest_field(alloc: Global, body: &[u8]) -> Result<Manifest, BodyFault>
    ensures stated { Answers (bodies.manifest_body body.now) result }
    ensures sound { IfOk result (λ manifest. IsSoundManifest manifest) }
{
    match manifest_from(alloc, text_of(body)) {
        Ok(manifest) => Ok(manifest),
        Err(ManifestError::Fault(fault)) => Err(BodyFault::Manifest(fault)),
        Err(ManifestError::Memory) => Err(BodyFault::Memory),
    }
}

/// The account to share with, what it is given, under which needs, and when that ends. A missing assignment gives no
/// role, missing needs are none, and without an expiry it doesn't end by itself.
pub fn share_fields(alloc: Global, body: &[u8]) -> Result<ShareFields, BodyFault>
    ensures stated { Answers (bodies.share_body body.now) result }
{
    let object = field(0, object_from(alloc, text_of(body))?)?;
    let to = field(1, number_from(object.get("to")).map(AccountId))?;
    let assignment = field(2, assignment_from(alloc, object.get("assignment"))?)?;
    let needs = field(3, needs_from(alloc, object.get("needs"))?)?;
    let expires = field(4, expiry_from(object.get("expires")))?;
    Ok(ShareFields {
        to,
        assignment,
        needs,
        expires,
    })
}

/// What a new link or token gives, under which needs, and when it ends. A missing assignment gives no role, missing
/// needs are none, and without an expiry it doesn't end by itself.
pub fn token_fields(alloc: Global, body: &[u8]) -> Result<TokenFields, BodyFault>
    ensures stated { Answers (bodies.token_body body.now) result }
{
    let object = field(0, object_from(alloc, text_of(body))?)?;
    let assignment = field(1, assignment_from(alloc, object.get("assignment"))?)?;
    let needs = field(2, needs_from(alloc, object.get("needs"))?)?;
    let expires = field(3, expiry_from(object.get("expires")))?;
    Ok(TokenFields {
        assignment,
        needs,
        expires,
    })
}

/// Whether a new token is for sharing, what it gives, under which needs, and when it ends. A missing assignment gives
/// no role, missing needs are none, and without an expiry it doesn't end by itself.
pub fn child_fields(alloc: Global, body: &[u8]) -> Result<ChildFields, BodyFault>
    ensures stated { Answers (bodies.child_body body.now) result }
{
    let object = field(0, object_from(alloc, text_of(body))?)?;
    let for_sharing = field(1, mark_from(object.get("for_sharing")))?;
    let assignment = field(2, assignment_from(alloc, object.get("assignment"))?)?;
    let needs = field(3, needs_from(alloc, object.get("needs"))?)?;
    let expires = field(4, expiry_from(object.get("expires")))?;
    Ok(ChildFields {
        for_sharing,
        assignment,
        needs,
        expires,
    })
}

/// The SHA-256 digest of the token to redeem, to restore or to drop, which is any text, over the bytes of its UTF-8 form.
pub fn token_field(alloc: Global, body: &[u8]) -> Result<Digest, BodyFault>
    ensures stated { Answers (bodies.redeem_body body.now) result }
{
    let object = field(0, object_from(alloc, text_of(body))?)?;
    field(1, token_from(object.get("token")))
}

/// What a grain is to be asked for.
pub fn query_field(alloc: Global, body: &[u8]) -> Result<Query, BodyFault>
    ensures stated { Answers (bodies.query_body body.now) result }
{
    let object = field(0, object_from(alloc, text_of(body))?)?;
    field(1, query_from(alloc, object.get("query"))?)
}

/// What is chosen, for which query, and what a chosen grain gives. A missing assignment gives no role.
pub fn choose_fields(alloc: Global, body: &[u8]) -> Result<ChooseFields, BodyFault>
    ensures stated { Answers (bodies.choose_body body.now) result }
{
    let object = field(0, object_from(alloc, text_of(body))?)?;
    let offer = field(1, offer_from(object.get("offer")))?;
    let query = field(2, query_from(alloc, object.get("query"))?)?;
    let assignment = field(3, assignment_from(alloc, object.get("assignment"))?)?;
    Ok(ChooseFields {
        offer,
        query,
        assignment,
    })
}

/// The account whose access to a grain is to be explained.
pub fn account_field(alloc: Global, body: &[u8]) -> Result<AccountId, BodyFault>
    ensures stated { Answers (bodies.why_body body.now) result }
{
    let object = field(0, object_from(alloc, text_of(body))?)?;
    field(1, number_from(object.get("account")).map(AccountId))
}

/// The grant by which a curator lists a grain.
pub fn grant_field(alloc: Global, body: &[u8]) -> Result<GrantId, BodyFault>
    ensures stated { Answers (bodies.grant_body body.now) result }
{
    let object = field(0, object_from(alloc, text_of(body))?)?;
    field(1, number_from(object.get("grant")).map(GrantId))
}

/// The grant by which a curator lists a grain, and the member that is to get its share, or none where all are to.
pub fn collect_fields(alloc: Global, body: &[u8]) -> Result<CollectFields, BodyFault>
    ensures stated { Answers (bodies.collect_body body.now) result }
{
    let object = field(0, object_from(alloc, text_of(body))?)?;
    let link = field(1, number_from(object.get("grant")).map(GrantId))?;
    let member = field(2, member_from(object.get("account")))?;
    Ok(CollectFields { link, member })
}

/// The number behind which a page of a list is asked for.
pub fn after_field(alloc: Global, body: &[u8]) -> Result<u32, BodyFault>
    ensures stated { Answers (bodies.after_body body.now) result }
{
    let object = field(0, object_from(alloc, text_of(body))?)?;
    field(1, after_from(object.get("after")))
}

/// The SHA-256 digest of the token to claim, and the permissions that the user of the grain has to hold.
pub fn claim_fields(alloc: Global, body: &[u8]) -> Result<ClaimFields, BodyFault>
    ensures stated { Answers (bodies.claim_body body.now) result }
{
    let object = field(0, object_from(alloc, text_of(body))?)?;
    let token = field(1, token_from(object.get("token")))?;
    let permissions = field(2, permissions_from(alloc, object.get("permissions"))?)?;
    Ok(ClaimFields { token, permissions })
}

/// The handle to save, and the label that is shown for it.
pub fn save_fields(alloc: Global, body: &[u8]) -> Result<SaveFields, BodyFault>
    ensures stated { Answers (bodies.save_body body.now) result }
{
    let object = field(0, object_from(alloc, text_of(body))?)?;
    let handle = field(1, number_from(object.get("handle")))?;
    let label = field(2, name_from(alloc, object.get("label"))?)?;
    Ok(SaveFields { handle, label })
}
