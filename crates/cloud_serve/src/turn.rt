//! One turn: what a request comes to.
ghost use Rattle.std.specs.Prelude.{◌≡◌, ℕ, ◌+◌, ◌<◌, ◌≤◌, Ok, Err, Some, length, IfOk, MatchResult};
ghost use Rattle.hub_core.specs.Book.{Book};
ghost use Rattle.cloud_serve.specs.Routes.{Shows};
ghost use Rattle.grain_supervise.specs.Line.{Line};
ghost use Rattle.cloud_serve.specs.Inner.{AsksOnce, ShowsKey, Takes};
ghost use Rattle.cloud_serve.specs.Acts.{is_done};
ghost use Rattle.cloud_serve.specs.Turns.{AnswersBack, AnswersCollecting, AnswersItem, AnswersOrder, ask_of, handed_of, listing_text};
ghost use Rattle.hub_core.specs.Book.{TakesNone};
ghost use Rattle.cloud_serve.specs.declared.showing.Showing.TheVariants as shown;

use crate::passing::with_target;
use crate::sharing::{Collecting, Stopped, collect_members};
use crate::showing::{Showing, find_showing};
use bridge_headers::{RelayFault, answer_text, grain_text};
use desk_page::desk_page_reply;
use front_http::Routes;
use grain_supervise::{AskFault, Link, LongAnswer, whole_answer};
use host_base::{
    ANSWER_READ, Answer, Bytes, Denial, GrainId, Key, Memory, Permit, Request, RunId, Verdict,
};
use hub_core::{Desk, Listing, Order, OrderFault, Reply};
use reply_texts::{
    Handed, OwnFault, command_reply, denial_reply, done_reply, fault_reply, options_reply,
    own_reply, site_reply, wants_head,
};
use report_texts::{
    access_reply, missing_reply, page_reply, preview_reply, shared_reply, why_reply,
};
use share_graph::{Made, Refusal};
use site_caps::SiteFault;
use std::alloc::Global;

/// The place and the text of an answer.
#[derive(Drop)]
pub struct Answered {
    pub place: u64,
    pub text: Bytes,
}

// The answer to what came back from a grain.
fn relay(alloc: Global, back: &Answer, head_only: bool) -> Result<Bytes, Memory>
    ensures { IfOk result (λ text. AnswersBack head_only (Some back.now) text) }
{
    match whole_answer(back) {
        Err(LongAnswer) => own_reply(alloc, 502, "LongAnswer", &[ANSWER_READ as u64], head_only),
        Ok(()) => match answer_text(alloc, back, head_only) {
            Ok(text) => Ok(Bytes::new(text)),
            Err(fault) => match fault {
                RelayFault::BadAnswer(at) => own_reply(alloc, 502, "BadAnswer", &[at], head_only),
                RelayFault::NoLength => own_reply(alloc, 502, "NoLength", &[], head_only),
                RelayFault::Memory => Err(Memory),
            },
        },
    }
}

// Asks the link, counts that, and makes an answer of what came back.
fn ask<L: Link>(
    alloc: Global,
    run: RunId,
    grain: GrainId,
    text: &[u8],
    head_only: bool,
    link: &mut L,
    forwarded: &mut u64,
) -> Result<Bytes, Memory>
    requires { forwarded.old < 18446744073709551615 }
    ensures few { forwarded.new ≤ forwarded.old + 1 }
    ensures asks { AsksOnce (L.line link.old) (L.line link.new) forwarded.old forwarded.new
        (λ back. record { run = run; grain = grain; text = text.now; back = back }) head_only result }
{
    match link.ask(alloc, run, grain, text) {
        Ok(back) => {
            *forwarded += 1;
            relay(alloc, &back, head_only)
        }
        Err(AskFault::LinkFailed) => {
            *forwarded += 1;
            own_reply(alloc, 502, "LinkFailed", &[], head_only)
        }
        Err(AskFault::Memory) => Err(Memory),
    }
}

// A request that goes through, as it is passed on.
fn forward<L: Link>(
    alloc: Global,
    passed: &Request,
    permit: &Permit,
    head_only: bool,
    link: &mut L,
    forwarded: &mut u64,
) -> Result<Bytes, Memory>
    requires { forwarded.old < 18446744073709551615 }
    ensures few { forwarded.new ≤ forwarded.old + 1 }
    ensures forwards { AsksOnce (L.line link.old) (L.line link.new) forwarded.old forwarded.new
        (ask_of permit.now passed.now) head_only result }
{
    match grain_text(alloc, permit, passed) {
        Err(Memory) => Err(Memory),
        Ok(text) => ask(
            alloc,
            permit.run,
            permit.grain,
            text.as_slice(),
            head_only,
            link,
            forwarded,
        ),
    }
}

// What an item of a site is answered.
fn site_answer<D: Desk>(
    alloc: Global,
    desk: &mut D,
    tag: u64,
    item: u32,
    head_only: bool,
) -> Result<Bytes, Memory>
    ensures none { TakesNone (D.book desk.old) (D.book desk.new) }
    ensures gives { IfOk result (AnswersItem (D.book desk.old).law tag item head_only) }
{
    match desk.site(alloc, tag, item) {
        Ok(text) => site_reply(alloc, text.as_slice(), head_only),
        Err(fault) => match fault {
            SiteFault::NoDriver(tag) => fault_reply(alloc, OwnFault::NoDriver(tag), head_only),
            SiteFault::NotOffered(tag, item) => {
                fault_reply(alloc, OwnFault::NotOffered(tag, item), head_only)
            }
            SiteFault::TwoDrivers(_) => unreachable!(),
            SiteFault::Memory => Err(Memory),
        },
    }
}

// A turn on a request that shows a key, and is passed on so.
fn keyed<D: Desk, L: Link>(
    alloc: Global,
    request: &Request,
    passed: &Request,
    key: &Key,
    desk: &mut D,
    link: &mut L,
    forwarded: &mut u64,
) -> Result<Answered, Memory>
    requires shown { ShowsKey request.now key.now passed.now }
    requires room { forwarded.old < 18446744073709551615 }
    ensures few { forwarded.new ≤ forwarded.old + 1 }
    ensures takes { (low last : ℕ) → low ≤ length (D.book desk.old).seen →
        Takes (D.book desk.old) (D.book desk.new) (L.line link.old) (L.line link.new)
        forwarded.old forwarded.new low last request.now result }
{
    let head_only = wants_head(request);
    match desk.verdict(alloc, key) {
        Err(Memory) => Err(Memory),
        Ok((place, verdict)) => match verdict {
            Verdict::Deny(reason) => match denial_reply(alloc, &reason, head_only) {
                Ok(text) => Ok(Answered { place, text }),
                Err(Memory) => Err(Memory),
            },
            Verdict::Site { tag, item } => match site_answer(alloc, desk, tag, item, head_only) {
                Ok(text) => Ok(Answered { place, text }),
                Err(Memory) => Err(Memory),
            },
            Verdict::Forward(permit) => {
                match forward(alloc, passed, &permit, head_only, link, forwarded) {
                    Ok(text) => Ok(Answered { place, text }),
                    Err(Memory) => Err(Memory),
                }
            }
        },
    }
}

// What an answer hands out, beside numbers: the key of the session that was opened, or a token.
fn handed(made: &Made, text: Option<Bytes>) -> Handed
    ensures { result ≡ handed_of made.now.session text }
{
    match text {
        None => Handed::Nothing,
        Some(text) => match made.session {
            Some(_) => Handed::Key(text),
            None => Handed::Token(text),
        },
    }
}

// Whether an order was carried out.
fn was_done(answer: &Result<Reply, OrderFault>) -> bool
    ensures { result ≡ is_done answer.now }
{
    match answer {
        Ok(Reply::Made(_, _)) => true,
        Ok(Reply::Refused(_)) | Ok(Reply::Listed(_)) | Err(_) => false,
    }
}

// The text of the answer to a question.
fn listing_reply(alloc: Global, listing: &Listing, head_only: bool) -> Result<Bytes, Memory>
    ensures { IfOk result (λ text. text ≡ listing_text listing.now head_only) }
{
    match listing {
        Listing::Options(list) => options_reply(alloc, list.as_slice(), head_only),
        Listing::Access(lines) => access_reply(alloc, lines.as_slice(), head_only),
        Listing::Losses(lines) => preview_reply(alloc, lines.as_slice(), head_only),
        Listing::Why(reasons) => why_reply(alloc, reasons.as_slice(), head_only),
        Listing::Owed(members) => missing_reply(alloc, members.as_slice(), head_only),
        Listing::Page(page) => page_reply(alloc, page, head_only),
    }
}

// The text of the answer to an order.
fn order_text(
    alloc: Global,
    answer: Result<Reply, OrderFault>,
    head_only: bool,
) -> Result<Bytes, Memory>
    ensures { IfOk result (AnswersOrder answer head_only) }
{
    match answer {
        Ok(reply) => match reply {
            Reply::Made(made, text) => {
                let handed = handed(&made, text);
                done_reply(alloc, &made, &handed, head_only)
            }
            Reply::Listed(listing) => listing_reply(alloc, &listing, head_only),
            Reply::Refused(refusal) => command_reply(alloc, &refusal, head_only),
        },
        Err(fault) => match fault {
            OrderFault::Store => fault_reply(alloc, OwnFault::StoreFailed, head_only),
            OrderFault::Secrets => fault_reply(alloc, OwnFault::SecretsFailed, head_only),
            OrderFault::Start => fault_reply(alloc, OwnFault::StartFailed, head_only),
            OrderFault::Memory => Err(Memory),
        },
    }
}

// A turn on a request that wants something of the desk.
fn ordered<D: Desk>(
    alloc: Global,
    request: &Request,
    order: Order,
    desk: &mut D,
) -> Result<Answered, Memory>
    requires shown { Shows request.now (shown.Wants order) }
    ensures takes { (low last counted : ℕ) (line : Line) → low ≤ length (D.book desk.old).seen →
        Takes (D.book desk.old) (D.book desk.new) line line counted counted low last request.now result }
{
    let (place, answer) = desk.order(alloc, order);
    match order_text(alloc, answer, wants_head(request)) {
        Ok(text) => Ok(Answered { place, text }),
        Err(Memory) => Err(Memory),
    }
}

// A turn on a request that wants a grain opened.
fn opened<D: Desk>(
    alloc: Global,
    request: &Request,
    first: Order,
    second: Order,
    desk: &mut D,
) -> Result<Answered, Memory>
    requires shown { Shows request.now (shown.Opens first second) }
    ensures takes { (low last counted : ℕ) (line : Line) → low ≤ length (D.book desk.old).seen →
        Takes (D.book desk.old) (D.book desk.new) line line counted counted low last request.now result }
{
    let (place, answer) = desk.order(alloc, first);
    if was_done(&answer) {
        let (place, answer) = desk.order(alloc, second);
        match order_text(alloc, answer, wants_head(request)) {
            Ok(text) => Ok(Answered { place, text }),
            Err(Memory) => Err(Memory),
        }
    } else {
        match order_text(alloc, answer, wants_head(request)) {
            Ok(text) => Ok(Answered { place, text }),
            Err(Memory) => Err(Memory),
        }
    }
}

// The text of the answer to what collecting came to.
fn collecting_text(
    alloc: Global,
    outcome: Result<u64, Stopped>,
    head_only: bool,
) -> Result<Bytes, Memory>
    ensures { IfOk result (AnswersCollecting outcome head_only) }
{
    match outcome {
        Ok(made) => shared_reply(alloc, made, head_only),
        Err(stopped) => order_text(alloc, stopped, head_only),
    }
}

// A turn on a request that wants the shares of all members of a collection.
fn collected<D: Desk>(
    alloc: Global,
    request: &Request,
    asks: &Collecting,
    desk: &mut D,
) -> Result<Answered, Memory>
    requires shown { Shows request.now (shown.Collects asks.now) }
    ensures takes { (low last counted : ℕ) (line : Line) → low ≤ length (D.book desk.old).seen →
        Takes (D.book desk.old) (D.book desk.new) line line counted counted low last request.now result }
{
    let (place, outcome) = collect_members(alloc, asks, desk);
    match collecting_text(alloc, outcome, wants_head(request)) {
        Ok(text) => Ok(Answered { place, text }),
        Err(Memory) => Err(Memory),
    }
}

// An answer that needs no desk, at the place before it.
fn placed(place: u64, text: Result<Bytes, Memory>) -> Result<Answered, Memory>
    ensures { MatchResult text (λ answer. result ≡ Ok (record { place = place; text = answer }))
        (λ m. result ≡ Err m) }
{
    match text {
        Ok(text) => Ok(Answered { place, text }),
        Err(Memory) => Err(Memory),
    }
}

/// Takes one turn: finds what a request shows, judges its key or gives the desk its order, asks the link where the request goes
/// through, and makes its answer. `last` is the place before it.
pub fn take_turn<D: Desk, L: Link>(
    alloc: Global,
    routes: &Routes,
    request: &Request,
    last: u64,
    desk: &mut D,
    link: &mut L,
    forwarded: &mut u64,
) -> Result<Answered, Memory>
    requires { forwarded.old < 18446744073709551615 }
    ensures few { forwarded.new ≤ forwarded.old + 1 }
    ensures takes { (low : ℕ) → low ≤ length (D.book desk.old).seen →
        Takes (D.book desk.old) (D.book desk.new) (L.line link.old) (L.line link.new)
        forwarded.old forwarded.new low last request.now result }
{
    let head_only = wants_head(request);
    match find_showing(alloc, routes, request) {
        Err(Memory) => Err(Memory),
        Ok(showing) => match showing {
            Showing::NoRoute => placed(last, own_reply(alloc, 404, "NoRoute", &[], head_only)),
            Showing::Page => placed(last, desk_page_reply(alloc, head_only)),
            Showing::NoCredential => {
                placed(last, denial_reply(alloc, &Denial::UnknownKey, head_only))
            }
            Showing::BadBody(field) => {
                placed(
                    last,
                    fault_reply(alloc, OwnFault::BadBody(field), head_only),
                )
            }
            Showing::BadManifest(bad) => {
                placed(
                    last,
                    command_reply(alloc, &Refusal::Manifest(bad), head_only),
                )
            }
            Showing::Keyed(key) => keyed(alloc, request, request, &key, desk, link, forwarded),
            Showing::Used(key, target) => {
                let Ok(passed) = with_target(alloc, request, target) else {
                    return Err(Memory);
                };
                keyed(alloc, request, &passed, &key, desk, link, forwarded)
            }
            Showing::Wants(order) => ordered(alloc, request, order, desk),
            Showing::Opens(first, second) => opened(alloc, request, first, second, desk),
            Showing::Collects(asks) => collected(alloc, request, &asks, desk),
        },
    }
}
