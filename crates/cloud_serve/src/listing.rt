//! The questions for lists that the bodies of their routes state.
ghost use Rattle.std.specs.Prelude.{◌≡◌};
ghost use Rattle.desk_bodies.specs.Answers.{Answers};
ghost use Rattle.desk_bodies.specs.Bodies.{after_body};
ghost use Rattle.desk_orders.specs.declared.order.Command.TheVariants as command;
ghost use Rattle.share_graph.specs.declared.desk.Caller.TheVariants as caller;
ghost use Rattle.cloud_serve.specs.Commands.{behind as the_behind, stating, wants};

use crate::showing::Showing;
use desk_bodies::{BodyFault, after_field};
use host_base::{AccountId, AppId, Digest, GrainId, GrantId};
use hub_core::{Command, Order};
use listings::Subject;
use share_graph::Caller;
use std::alloc::Global;

// What is listed, behind this number.
fn behind(subject: Subject, after: u32) -> Subject
    ensures { result ≡ the_behind subject after }
{
    match subject {
        Subject::Own => Subject::Own,
        Subject::Accounts(_) => Subject::Accounts(AccountId(after)),
        Subject::Apps(_) => Subject::Apps(AppId(after)),
        Subject::Entered(_) => Subject::Entered(GrainId(after)),
        Subject::Given(grain, _) => Subject::Given(grain, GrantId(after)),
    }
}

/// A page of a list, behind the number that the body states.
pub fn page(alloc: Global, who: Digest, subject: Subject, body: &[u8]) -> Result<Showing, BodyFault>
    ensures { Answers (stating
        (λ after. wants (caller.Login who) (command.List (the_behind subject after)))
        (after_body body.now)) result }
{
    let after = after_field(alloc, body)?;
    let asked = Command::List(behind(subject, after));
    Ok(Showing::Wants(Order::new(Caller::Login(who), asked)))
}
