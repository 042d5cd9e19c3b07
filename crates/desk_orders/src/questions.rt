//! The answers to questions, which change nothing.

ghost use Rattle.std.specs.Prelude.{◌≡◌, List, true};
ghost use Rattle.desk_base.specs.Terms.{IsOne, IsWellFormed};
ghost use Rattle.live_access.specs.Kept.{IsSolvedFor};
ghost use Rattle.powerbox_match.specs.Descriptor.{DescriptorData};
ghost use Rattle.desk_orders.specs.Commands as commands;
ghost use Rattle.desk_orders.specs.Listing.{IsListed};
ghost use Rattle.desk_orders.specs.Sites.{AreListed, HasOneAnswer};
ghost use Rattle.host_base.specs.declared.ids.GrainId as the_grain;

use crate::order::{Command, Order};
use crate::reply::Listing;
use crate::sites::options_of;
use collections::missing;
use listings::list;
use live_access::Solution;
use report_desk::{access, preview, why};
use share_graph::{DeskFault, State};
use site_caps::{Registry, SiteDriver};
use std::alloc::Global;

/// Whether an order is a question, and so is answered by a listing.
pub fn lists(order: &Order) -> bool
    ensures { result ≡ commands.lists order.now.command }
{
    matches!(
        &order.command,
        Command::Options(_, _)
            | Command::Access(_)
            | Command::Preview(_)
            | Command::Why(_, _)
            | Command::Missing(_, _)
            | Command::List(_)
    )
}

/// The answer to a question, by its row: to what may be chosen with the offers of the sites, which are one list where the law of the sites
/// has one answer.
pub fn listing_of<C: SiteDriver + Drop>(
    alloc: Global,
    state: &State,
    solution: &Solution,
    sites: &Registry<C>,
    order: &Order,
) -> Result<Listing, DeskFault>
    requires formed { IsWellFormed state.now }
    requires solved { IsSolvedFor state.now.tables solution.now }
    requires asks { commands.lists order.now.command ≡ true }
    ensures listed { IsListed C.Law.law state.now order.now result }
    ensures one { HasOneAnswer C.Law.law → (n : the_grain.GrainId) (query : List DescriptorData)
        → IsOne (AreListed C.Law.law state.now order.now.caller n query) }
{
    let caller = &order.caller;
    match &order.command {
        Command::Options(grain, query) => {
            let solved = solution.solved();
            options_of(alloc, state, solved, sites, caller, *grain, query).map(Listing::Options)
        }
        Command::Access(grain) => {
            access(alloc, state, solution, caller, *grain).map(Listing::Access)
        }
        Command::Preview(grant) => {
            preview(alloc, state, solution, caller, *grant).map(Listing::Losses)
        }
        Command::Why(grain, account) => {
            why(alloc, state, solution, caller, *grain, *account).map(Listing::Why)
        }
        Command::Missing(collection, link) => {
            missing(alloc, state, solution, caller, *collection, *link).map(Listing::Owed)
        }
        Command::List(subject) => {
            list(alloc, state, solution, caller, *subject).map(Listing::Page)
        }
        _ => unreachable!(),
    }
}
