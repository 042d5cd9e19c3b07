//! The commands that the bodies of a collection's routes state.
ghost use Rattle.desk_bodies.specs.Answers.{Answers};
ghost use Rattle.desk_bodies.specs.Bodies.{collect_body, grant_body};
ghost use Rattle.desk_orders.specs.declared.order.Command.TheVariants as command;
ghost use Rattle.share_graph.specs.declared.desk.Caller.TheVariants as caller;
ghost use Rattle.cloud_serve.specs.Commands.{collects, stating, wants};

use crate::sharing::Collecting;
use crate::showing::Showing;
use desk_bodies::{BodyFault, CollectFields, collect_fields, grant_field};
use host_base::{Digest, GrainId};
use hub_core::{Command, Order};
use share_graph::Caller;
use std::alloc::Global;

/// Which members of a collection are owed a share.
pub fn missing(
    alloc: Global,
    who: Digest,
    collection: GrainId,
    body: &[u8],
) -> Result<Showing, BodyFault>
    ensures { Answers (stating
        (λ link. wants (caller.Login who) (command.Missing collection link))
        (grant_body body.now)) result }
{
    let link = grant_field(alloc, body)?;
    Ok(Showing::Wants(Order::new(Caller::Login(who), Command::Missing(collection, link))))
}

/// A member of a collection gets the share that it is owed, or where none is named each of them its own.
pub fn collection(
    alloc: Global,
    who: Digest,
    collection: GrainId,
    body: &[u8],
) -> Result<Showing, BodyFault>
    ensures { Answers (stating (λ fields. collects who collection fields.link fields.member)
        (collect_body body.now)) result }
{
    let CollectFields { link, member } = collect_fields(alloc, body)?;
    match member {
        Some(member) => Ok(Showing::Wants(Order::new(
            Caller::Login(who),
            Command::Collect {
                collection,
                link,
                member,
            },
        ))),
        None => Ok(Showing::Collects(Collecting {
            curator: who,
            collection,
            link,
        })),
    }
}
