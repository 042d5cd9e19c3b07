//! Answering an order at the end of a history.

ghost use Rattle.std.specs.Prelude.{◌≡◌, ◌≤◌, length, true, false, IfOk, OnErr};
ghost use Rattle.desk_base.specs.Accepting.{Ready};
ghost use Rattle.desk_base.specs.Outcomes.{draft_step, with_digest};
ghost use Rattle.desk_base.specs.Terms.{Digest, EventFits, IsUnused, Rose};
ghost use Rattle.desk_orders.specs.Commands as commands;
ghost use Rattle.desk_orders.specs.Orders.{RowOf};
ghost use Rattle.desk_orders.specs.Secrets as texts;
ghost use Rattle.desk_orders.specs.Secrets.{text_digest};
ghost use Rattle.host_base.specs.Drawing.{Draws};
ghost use Rattle.site_caps.specs.Law.{Law};
ghost use Rattle.hub_core.specs.Book.{Backing, Ordered};
ghost use Rattle.hub_core.specs.Inner as inner;
ghost use Rattle.hub_core.specs.Inner.{Outlasts, OutlastsOrder, OrderedBy};
ghost use Rattle.hub_core.specs.Sharing.{book_at, book_of, sharing_of, state_of};
ghost use Rattle.hub_core.specs.Stopping.{AreInHand};

use crate::held::{Held, Holding};
use crate::history::History;
use crate::telling::app_of;
use desk_base::Draft;
use desk_orders::{
    Decision, Order, OrderFault, Reply, decide, found_of, listing_of, lists, secret_text,
    shown_text,
};
use host_base::{Bytes, Digest, DrawFailed, Memory, Secrets, digest_of};
use share_graph::{DeskFault, Made};
use share_tokens::Secret;
use site_caps::{Registry, SiteDriver};
use std::alloc::Global;

// The text of the secret of an order, and the digest by which it is known.
fn text_of(alloc: Global, order: &Order, secret: [u8; 32]) -> Result<(Bytes, Digest), Memory>
    ensures { IfOk result (λ drawn. (drawn.0 ≡ texts.secret_text order.now.command secret)
        × (drawn.1 ≡ text_digest (texts.secret_text order.now.command secret))) }
{
    let text = secret_text(alloc, order, &Secret(secret))?;
    let digest = digest_of(text.as_slice());
    Ok((text, digest))
}

// Draws a secret. A failure is counted, and what is to come is unchanged.
fn draw<H: Holding>(held: &mut Held<H>) -> Result<[u8; 32], DrawFailed>
    ensures drawn { IfOk result (Draws held.old.tell.drawer.coming held.new.tell.drawer.coming) }
    ensures kept { OnErr result (held.new.tell.drawer.coming ≡ held.old.tell.drawer.coming) }
    ensures counts { held.old.tell.drawer.faults ≤ held.new.tell.drawer.faults }
    ensures cause { OnErr result (Rose held.old.tell.drawer.faults held.new.tell.drawer.faults) }
    ensures others { held.new.tell ≡ record held.old.tell { drawer = held.new.tell.drawer } }
    ensures keeper { held.new.keeper ≡ held.old.keeper }
{
    held.secrets.draw()
}

// The reply to a change, once it was added.
fn replied(
    made: Made,
    text: Option<Bytes>,
    added: Result<(), OrderFault>,
) -> Result<Reply, OrderFault>
    ensures { result ≡ inner.replied made text added }
{
    match added {
        Ok(()) => Ok(Reply::Made(made, text)),
        Err(fault) => Err(fault),
    }
}

// Answers an order with a draft: draws the secret whose digest completes it.
fn answer_drawn<H: Holding>(
    alloc: Global,
    history: &mut History,
    held: &mut Held<H>,
    found: Option<bool>,
    order: &Order,
    draft: Draft,
) -> Result<Reply, OrderFault>
    requires asks { commands.lists order.now.command ≡ false }
    requires ready { Ready (length history.old.entries) (RowOf (state_of history.old) found order.now)
        (draft_step draft) }
    requires fits { (d : Digest) → IsUnused (state_of history.old) d
        → EventFits (state_of history.old) (with_digest draft.event d) }
    ensures ordered { (law : Law) → OrderedBy law found (sharing_of history.old held.old)
        (sharing_of history.new held.new) order.now result }
    ensures leaves { (law : Law) → OutlastsOrder H.Keeper.may_leave law found history.old history.new held.old
        held.new order.now }
{
    let Ok(secret) = draw(held) else {
        return Err(OrderFault::Secrets);
    };
    let Ok((text, digest)) = text_of(alloc, order, secret) else {
        return Err(OrderFault::Memory);
    };
    match draft.complete(history.state(), digest) {
        Err(refusal) => Ok(Reply::Refused(refusal)),
        Ok((event, made)) => {
            let app = app_of(history.state(), &event);
            let added = history.add(alloc, held, event, app, text.as_slice());
            replied(made, shown_text(order, text), added)
        }
    }
}

// Answers an order that is no question, with what the sites have of what it chooses.
fn answer_found<H: Holding>(
    alloc: Global,
    history: &mut History,
    held: &mut Held<H>,
    found: Option<bool>,
    order: &Order,
) -> Result<Reply, OrderFault>
    requires asks { commands.lists order.now.command ≡ false }
    ensures ordered { (law : Law) → OrderedBy law found (sharing_of history.old held.old)
        (sharing_of history.new held.new) order.now result }
    ensures leaves { (law : Law) → OutlastsOrder H.Keeper.may_leave law found history.old history.new held.old
        held.new order.now }
{
    let count = history.count();
    match decide(
        alloc,
        history.state(),
        history.solution(),
        count,
        found,
        order,
    ) {
        Decision::Refused(refusal) => Ok(Reply::Refused(refusal)),
        Decision::Same(made) => Ok(Reply::Made(made, None)),
        Decision::Draft(draft) => answer_drawn(alloc, history, held, found, order, draft),
        Decision::Change(event, made) => {
            let app = app_of(history.state(), &event);
            let added = history.add(alloc, held, event, app, &[]);
            replied(made, None, added)
        }
        Decision::Memory => Err(OrderFault::Memory),
    }
}

// Answers a question, which changes nothing.
fn list<C: SiteDriver + Drop>(
    alloc: Global,
    history: &History,
    sites: &Registry<C>,
    order: &Order,
) -> Result<Reply, OrderFault>
    requires { commands.lists order.now.command ≡ true }
    ensures { (holds : Backing) → Ordered (book_at C.Law.law history.now holds)
        (book_at C.Law.law history.now holds) order.now (length history.now.entries) result }
{
    match listing_of(alloc, history.state(), history.solution(), sites, order) {
        Ok(listing) => Ok(Reply::Listed(listing)),
        Err(DeskFault::Refused(refusal)) => Ok(Reply::Refused(refusal)),
        Err(DeskFault::Memory) => Err(OrderFault::Memory),
    }
}

/// Answers an order, with what the drivers of the sites have of what it chooses or asks for.
pub fn answer<H: Holding, C: SiteDriver + Drop>(
    alloc: Global,
    history: &mut History,
    held: &mut Held<H>,
    sites: &Registry<C>,
    order: &Order,
) -> Result<Reply, OrderFault>
    ensures ordered { Ordered (book_of C.Law.law (sharing_of history.old held.old))
        (book_of C.Law.law (sharing_of history.new held.new)) order.now (length history.old.entries) result }
    ensures leaves { Outlasts H.Keeper.may_leave history.old history.new held.old held.new
        (AreInHand C.Law.law (state_of history.old) (length history.old.entries) order.now) }
{
    if lists(order) {
        return list(alloc, history, sites, order);
    }
    let Ok(found) = found_of(alloc, history.state(), history.solved(), sites, order) else {
        return Err(OrderFault::Memory);
    };
    answer_found(alloc, history, held, found, order)
}
