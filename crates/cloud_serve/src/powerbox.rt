//! The commands that the bodies of the powerbox's routes and of running grains state.
ghost use Rattle.desk_bodies.specs.Answers.{Answers};
ghost use Rattle.desk_bodies.specs.Bodies.{choose_body, claim_body, query_body, save_body, redeem_body};
ghost use Rattle.desk_orders.specs.declared.order.Command.TheVariants as command;
ghost use Rattle.share_graph.specs.declared.desk.Caller.TheVariants as caller;
ghost use Rattle.cloud_serve.specs.Commands.{stating, wants};

use crate::showing::Showing;
use desk_bodies::{
    BodyFault, ChooseFields, ClaimFields, SaveFields, choose_fields, claim_fields, query_field,
    save_fields, token_field,
};
use host_base::{Digest, GrainId};
use hub_core::{Command, Order};
use share_graph::Caller;
use std::alloc::Global;

/// What may be chosen for a grain.
pub fn options(
    alloc: Global,
    who: Digest,
    grain: GrainId,
    body: &[u8],
) -> Result<Showing, BodyFault>
    ensures { Answers (stating
        (λ query. wants (caller.Login who) (command.Options grain query))
        (query_body body.now)) result }
{
    let query = query_field(alloc, body)?;
    Ok(Showing::Wants(Order::new(Caller::Login(who), Command::Options(grain, query))))
}

/// Something is chosen for a grain.
pub fn choice(alloc: Global, who: Digest, grain: GrainId, body: &[u8]) -> Result<Showing, BodyFault>
    ensures { Answers (stating
        (λ fields.
        wants (caller.Login who) (command.Choose grain fields.offer fields.query fields.assignment))
        (choose_body body.now)) result }
{
    let ChooseFields {
        offer,
        query,
        assignment,
    } = choose_fields(alloc, body)?;
    Ok(Showing::Wants(Order::new(
        Caller::Login(who),
        Command::Choose {
            grain,
            offer,
            query,
            assignment,
        },
    )))
}

/// A run claims what was chosen for its grain.
pub fn claim(alloc: Global, who: Digest, body: &[u8]) -> Result<Showing, BodyFault>
    ensures { Answers (stating
        (λ fields. wants (caller.Run who) (command.Claim fields.token fields.permissions))
        (claim_body body.now)) result }
{
    let ClaimFields { token, permissions } = claim_fields(alloc, body)?;
    Ok(Showing::Wants(Order::new(Caller::Run(who), Command::Claim { token, permissions })))
}

/// A run saves what one of its handles stands for.
pub fn reference(alloc: Global, who: Digest, body: &[u8]) -> Result<Showing, BodyFault>
    ensures { Answers (stating
        (λ fields. wants (caller.Run who) (command.Save fields.handle fields.label))
        (save_body body.now)) result }
{
    let SaveFields { handle, label } = save_fields(alloc, body)?;
    Ok(Showing::Wants(Order::new(Caller::Run(who), Command::Save { handle, label })))
}

/// A run restores a saved reference.
pub fn restoration(alloc: Global, who: Digest, body: &[u8]) -> Result<Showing, BodyFault>
    ensures { Answers (stating
        (λ token. wants (caller.Run who) (command.Restore token))
        (redeem_body body.now)) result }
{
    let token = token_field(alloc, body)?;
    Ok(Showing::Wants(Order::new(Caller::Run(who), Command::Restore(token))))
}

/// A run drops a saved reference.
pub fn drop_reference(alloc: Global, who: Digest, body: &[u8]) -> Result<Showing, BodyFault>
    ensures { Answers (stating
        (λ token. wants (caller.Run who) (command.DropSaved token))
        (redeem_body body.now)) result }
{
    let token = token_field(alloc, body)?;
    Ok(Showing::Wants(Order::new(Caller::Run(who), Command::DropSaved(token))))
}
