//! A tunnel, from its first message to its end.

ghost use Rattle.std.specs.Prelude.{◌≡◌, ◌+◌, ◌<◌, ◌≤◌, ℕ, length, vec_len, vec_capacity};
ghost use Rattle.tunnel_serve.specs.Inner.{Answers, Puts, Serves, Settles, Steps};
ghost use Rattle.tunnel_serve.specs.Tunnels.{TunnelRun};

use crate::opening::open;
use crate::replies::{Outcome, ask, denied, notice};
use crate::tunnel_end::{HallEnd, TunnelEnd};
use cloud_serve::Places;
use grain_supervise::Link;
use host_base::{Digest, Key, Memory, Verdict};
use hub_core::Desk;
use std::alloc::Global;
use ws_tunnel::{HallFault, Message, Messages};

/// How many messages behind its key one tunnel may have.
pub const MESSAGE_LIMIT: u64 = 1_000_000;

// The most bytes of a message that is passed on.
const LONGEST: usize = 1_048_576;

// Asks the desk for the verdict on a message that isn't too long, and then the grain, if it forwards. The place of the verdict is
// kept.
fn answer<D: Desk, L: Link>(
    alloc: Global,
    who: Digest,
    number: u64,
    message: &Message,
    desk: &mut D,
    link: &mut L,
    places: &mut Vec<u64>,
    passed: &mut u64,
) -> Result<Outcome, Memory>
    requires room { vec_len places.old < vec_capacity places.old }
    requires few { passed.old < 18446744073709551615 }
    ensures few { passed.new ≤ passed.old + 1 }
    ensures answers { (low : ℕ) → low ≤ length (D.book desk.old).seen →
        Answers D.gave D.book (L.line link.old) (L.line link.new) desk.old desk.new places.old.items places.new.items
        passed.old passed.new low who number message.now result }
{
    if message.len() > LONGEST {
        return match notice(alloc, "LongBody", &[number]) {
            Ok(reply) => Ok(Outcome::GoesOn(reply)),
            Err(Memory) => Err(Memory),
        };
    }
    match desk.verdict(alloc, &Key::Session(who)) {
        Err(Memory) => Err(Memory),
        Ok((place, verdict)) => {
            places.push(place).unwrap();
            match verdict {
                Verdict::Deny(reason) => denied(alloc, reason),
                Verdict::Forward(permit) => match ask(alloc, &permit, message, link, passed) {
                    Ok(reply) => Ok(Outcome::GoesOn(reply)),
                    Err(Memory) => Err(Memory),
                },
                // A session's key never stands for an item of a site.
                Verdict::Site { tag: _, item: _ } => unreachable!(),
            }
        }
    }
}

// Puts a message, and says how the tunnel ends where it can't.
fn put<M: Messages>(alloc: Global, reply: &Message, messages: &mut M) -> Result<(), HallEnd>
    ensures { Puts (M.hall messages.old) (M.hall messages.new) reply.now result }
{
    match messages.put(alloc, reply) {
        Ok(()) => Ok(()),
        Err(HallFault::Failed) => Err(HallEnd::WriteFault),
        Err(HallFault::Memory) => Err(HallEnd::Memory),
    }
}

// Puts what came out for a message.
fn settle<M: Messages>(alloc: Global, outcome: &Outcome, messages: &mut M) -> Result<(), HallEnd>
    ensures { Settles (M.hall messages.old) (M.hall messages.new) outcome.now result }
{
    match outcome {
        Outcome::GoesOn(reply) => put(alloc, reply, messages),
        Outcome::Denied(reason, reply) => match put(alloc, reply, messages) {
            Ok(()) => Err(HallEnd::Refused(*reason)),
            Err(end) => Err(end),
        },
    }
}

// Takes the next message behind the key, serves it, and says how the tunnel ends where it doesn't go on.
fn exchange<M: Messages, D: Desk, L: Link>(
    alloc: Global,
    who: Digest,
    number: u64,
    messages: &mut M,
    desk: &mut D,
    link: &mut L,
    places: &mut Vec<u64>,
    passed: &mut u64,
) -> Result<(), HallEnd>
    requires { passed.old < 18446744073709551615 }
    ensures few { passed.new ≤ passed.old + 1 }
    ensures steps { (low : ℕ) → low ≤ length (D.book desk.old).seen →
        Steps D.gave D.book who low number
        (record { hall = M.hall messages.old; line = L.line link.old })
        (record { hall = M.hall messages.new; line = L.line link.new })
        desk.old desk.new places.old.items places.new.items passed.old passed.new result }
{
    if places.reserve(1).is_err() {
        return Err(HallEnd::Memory);
    }
    match messages.next(alloc) {
        Ok(next) => match next {
            None => Err(HallEnd::Closed),
            Some(message) => {
                match answer(alloc, who, number, &message, desk, link, places, passed) {
                    Ok(outcome) => settle(alloc, &outcome, messages),
                    Err(Memory) => Err(HallEnd::Memory),
                }
            }
        },
        Err(HallFault::Failed) => Err(HallEnd::ReadFault),
        Err(HallFault::Memory) => Err(HallEnd::Memory),
    }
}

// Serves the messages behind the key, one after another.
fn serve_opened<M: Messages, D: Desk, L: Link>(
    alloc: Global,
    who: Digest,
    messages: &mut M,
    desk: &mut D,
    link: &mut L,
    places: &mut Vec<u64>,
    passed: &mut u64,
) -> HallEnd
    requires { passed.old ≡ 0 }
    ensures { Serves D.gave D.book who
        (record { hall = M.hall messages.old; line = L.line link.old })
        (record { hall = M.hall messages.new; line = L.line link.new })
        desk.old desk.new places.old.items places.new.items passed.old passed.new result }
{
    'messages: for number in 0..MESSAGE_LIMIT {
        match exchange(alloc, who, number + 1, messages, desk, link, places, passed) {
            Ok(()) => {}
            Err(end) => return end,
        }
    }
    HallEnd::Spent
}

// How a tunnel ended, with the list of its places.
fn ended(end: HallEnd, from: u64, places: Vec<u64>, passed: u64) -> TunnelEnd
    ensures { result ≡ record {
      end = end;
      from = from;
      places = places.items;
      passed = passed;
    } }
{
    TunnelEnd {
        end,
        from,
        places: Places::new(places),
        passed,
    }
}

/// Serves one tunnel: takes the key, which is its first message, and then decides each message anew, asks the grain where it goes
/// through, and puts what came back, until a message is refused or none is left.
pub fn serve_tunnel<M: Messages, D: Desk, L: Link>(
    alloc: Global,
    messages: &mut M,
    desk: &mut D,
    link: &mut L,
) -> TunnelEnd
    ensures { TunnelRun D.gave D.book
        (record { hall = M.hall messages.old; line = L.line link.old })
        (record { hall = M.hall messages.new; line = L.line link.new })
        desk.old desk.new result.end result.from result.places result.passed }
{
    let from = desk.place();
    match open(alloc, messages) {
        Ok(who) => {
            let mut places = Vec::new(alloc);
            let mut passed = 0;
            let end = serve_opened(alloc, who, messages, desk, link, &mut places, &mut passed);
            ended(end, from, places, passed)
        }
        Err(end) => ended(end, from, Vec::new(alloc), 0),
    }
}
