//! The commands that the bodies of the desk's routes state.
ghost use Rattle.desk_bodies.specs.Answers.{Answers};
ghost use Rattle.desk_bodies.specs.Bodies.{account_body, child_body, grain_body, manifest_body, mark_body, plain_body, redeem_body, share_body, tab_body, token_body, why_body};
ghost use Rattle.desk_orders.specs.Commands.{IsStated};
ghost use Rattle.desk_orders.specs.declared.order.Command.TheVariants as command;
ghost use Rattle.share_graph.specs.declared.desk.Caller.TheVariants as caller;
ghost use Rattle.cloud_serve.specs.Commands.{stating, wants, opens};

use crate::showing::Showing;
use desk_bodies::{
    AccountFields, BodyFault, ChildFields, GrainFields, ShareFields, TokenFields, account_field,
    account_fields, child_fields, grain_fields, manifest_field, mark_field, no_fields,
    share_fields, tab_field, token_field, token_fields,
};
use host_base::{AccountId, AppId, Digest, GrainId};
use hub_core::{Command, Order};
use share_graph::Caller;
use std::alloc::Global;

/// A new account.
pub fn new_account(alloc: Global, who: Digest, body: &[u8]) -> Result<Showing, BodyFault>
    ensures { Answers (stating
        (λ fields. wants (caller.Login who) (command.AddAccount fields.handle fields.name))
        (account_body body.now)) result }
{
    let AccountFields { handle, name } = account_fields(alloc, body)?;
    Ok(Showing::Wants(Order::new(Caller::Login(who), Command::AddAccount(handle, name))))
}

/// An account becomes an admin, or is one no longer.
pub fn admin_mark(
    alloc: Global,
    who: Digest,
    account: AccountId,
    body: &[u8],
) -> Result<Showing, BodyFault>
    ensures { Answers (stating
        (λ on. wants (caller.Login who) (command.SetAdmin account on))
        (mark_body body.now)) result }
{
    let on = mark_field(alloc, body)?;
    Ok(Showing::Wants(Order::new(Caller::Login(who), Command::SetAdmin(account, on))))
}

/// An account is enabled, or disabled.
pub fn enabled_mark(
    alloc: Global,
    who: Digest,
    account: AccountId,
    body: &[u8],
) -> Result<Showing, BodyFault>
    ensures { Answers (stating
        (λ on. wants (caller.Login who) (command.SetEnabled account on))
        (mark_body body.now)) result }
{
    let on = mark_field(alloc, body)?;
    Ok(Showing::Wants(Order::new(Caller::Login(who), Command::SetEnabled(account, on))))
}

/// A new application.
pub fn new_app(alloc: Global, who: Digest, body: &[u8]) -> Result<Showing, BodyFault>
    ensures { Answers (stating
        (λ manifest. wants (caller.Login who) (command.AddApp manifest))
        (manifest_body body.now)) result }
{
    let manifest = manifest_field(alloc, body)?;
    Ok(Showing::Wants(Order::new(Caller::Login(who), Command::AddApp(manifest))))
}

/// An application gets another manifest.
pub fn new_manifest(
    alloc: Global,
    who: Digest,
    app: AppId,
    body: &[u8],
) -> Result<Showing, BodyFault>
    ensures { Answers (stating
        (λ manifest. wants (caller.Login who) (command.UpgradeApp app manifest))
        (manifest_body body.now)) result }
{
    let manifest = manifest_field(alloc, body)?;
    Ok(Showing::Wants(Order::new(Caller::Login(who), Command::UpgradeApp(app, manifest))))
}

/// A new grain.
pub fn new_grain(alloc: Global, who: Digest, body: &[u8]) -> Result<Showing, BodyFault>
    ensures { Answers (stating
        (λ fields. wants (caller.Login who) (command.NewGrain fields.app fields.title))
        (grain_body body.now)) result }
{
    let GrainFields { app, title } = grain_fields(alloc, body)?;
    Ok(Showing::Wants(Order::new(Caller::Login(who), Command::NewGrain(app, title))))
}

/// A command whose body states nothing.
pub fn plain(alloc: Global, who: Caller, asked: Command, body: &[u8]) -> Result<Showing, BodyFault>
    requires { IsStated who asked }
    ensures { Answers (stating (λ _. wants who asked) (plain_body body.now)) result }
{
    no_fields(alloc, body)?;
    Ok(Showing::Wants(Order::new(who, asked)))
}

/// Why an account has access to a grain.
pub fn reasons(
    alloc: Global,
    who: Digest,
    grain: GrainId,
    body: &[u8],
) -> Result<Showing, BodyFault>
    ensures { Answers (stating
        (λ account. wants (caller.Login who) (command.Why grain account))
        (why_body body.now)) result }
{
    let account = account_field(alloc, body)?;
    Ok(Showing::Wants(Order::new(Caller::Login(who), Command::Why(grain, account))))
}

/// A share of a grain.
pub fn new_share(
    alloc: Global,
    who: Digest,
    grain: GrainId,
    body: &[u8],
) -> Result<Showing, BodyFault>
    ensures { Answers (stating
        (λ fields.
        wants (caller.Login who) (command.Share grain fields.to fields.assignment fields.needs fields.expires))
        (share_body body.now)) result }
{
    let ShareFields {
        to,
        assignment,
        needs,
        expires,
    } = share_fields(alloc, body)?;
    Ok(Showing::Wants(Order::new(
        Caller::Login(who),
        Command::Share {
            grain,
            to,
            assignment,
            needs,
            expires,
        },
    )))
}

/// A token to a grain: a link where it is for sharing.
pub fn new_token(
    alloc: Global,
    who: Digest,
    grain: GrainId,
    for_sharing: bool,
    body: &[u8],
) -> Result<Showing, BodyFault>
    ensures { Answers (stating
        (λ fields.
        wants (caller.Login who) (command.MakeToken grain for_sharing fields.assignment fields.needs fields.expires))
        (token_body body.now)) result }
{
    let TokenFields {
        assignment,
        needs,
        expires,
    } = token_fields(alloc, body)?;
    Ok(Showing::Wants(Order::new(
        Caller::Login(who),
        Command::MakeToken {
            grain,
            for_sharing,
            assignment,
            needs,
            expires,
        },
    )))
}

/// A further token from a bearer's.
pub fn new_child(alloc: Global, who: Digest, body: &[u8]) -> Result<Showing, BodyFault>
    ensures { Answers (stating
        (λ fields.
        wants (caller.Bearer who) (command.Child fields.for_sharing fields.assignment fields.needs fields.expires))
        (child_body body.now)) result }
{
    let ChildFields {
        for_sharing,
        assignment,
        needs,
        expires,
    } = child_fields(alloc, body)?;
    Ok(Showing::Wants(Order::new(
        Caller::Bearer(who),
        Command::Child {
            for_sharing,
            assignment,
            needs,
            expires,
        },
    )))
}

/// A link is redeemed.
pub fn redemption(alloc: Global, who: Digest, body: &[u8]) -> Result<Showing, BodyFault>
    ensures { Answers (stating
        (λ token. wants (caller.Login who) (command.Redeem token))
        (redeem_body body.now)) result }
{
    let token = token_field(alloc, body)?;
    Ok(Showing::Wants(Order::new(Caller::Login(who), Command::Redeem(token))))
}

/// A grain is opened: by a login, which names it, or by a bearer.
pub fn opening(
    alloc: Global,
    who: Caller,
    grain: Option<GrainId>,
    body: &[u8],
) -> Result<Showing, BodyFault>
    requires { IsStated who (command.StartRun grain) }
    ensures { Answers (stating (λ tab. opens who grain tab) (tab_body body.now)) result }
{
    let tab = tab_field(alloc, body)?;
    Ok(Showing::Opens(
        Order::new(who, Command::StartRun(grain)),
        Order::new(who, Command::OpenSession { grain, tab }),
    ))
}
