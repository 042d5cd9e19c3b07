//! What is to be put for a message.

ghost use Rattle.std.specs.Prelude.{◌≡◌, ◌+◌, ◌<◌, ◌≤◌, Some, IfOk};
ghost use Rattle.bridge_headers.specs.Text.{grain_text as grain_text_of};
ghost use Rattle.reply_texts.specs.Texts.{denial_body as body_of};
ghost use Rattle.tunnel_serve.specs.Exchanges.{PutsBack, notice as said, request_of as request};
ghost use Rattle.tunnel_serve.specs.Inner.{Asks};

use crate::request::request_of;
use bridge_headers::{RelayFault, answer_text, grain_text};
use front_http::refusal_body;
use grain_supervise::{AskFault, Link, LongAnswer, whole_answer};
use host_base::{ANSWER_READ, Answer, Bytes, Denial, Memory, Permit};
use reply_texts::denial_body;
use std::alloc::Global;
use ws_tunnel::Message;

/// What is to be put for a message, and whether the tunnel goes on with it or ends by a denial.
#[derive(Drop)]
pub enum Outcome {
    GoesOn(Message),
    Denied(Denial, Message),
}

/// A text of the server's own: what went wrong, and its numbers.
pub fn notice(alloc: Global, name: &str, numbers: &[u64]) -> Result<Message, Memory>
    ensures { IfOk result (λ made. made ≡ said name.now numbers.now) }
{
    match refusal_body(alloc, name, numbers) {
        Ok(body) => Ok(Message::Text(body)),
        Err(Memory) => Err(Memory),
    }
}

// What is put of what came back from a grain.
fn relayed(alloc: Global, back: &Answer) -> Result<Message, Memory>
    ensures { IfOk result (λ reply. PutsBack (Some back.now) reply) }
{
    match whole_answer(back) {
        Err(LongAnswer) => notice(alloc, "LongAnswer", &[ANSWER_READ as u64]),
        Ok(()) => match answer_text(alloc, back, false) {
            Ok(text) => Ok(Message::Binary(Bytes::new(text))),
            Err(fault) => match fault {
                RelayFault::BadAnswer(at) => notice(alloc, "BadAnswer", &[at]),
                RelayFault::NoLength => notice(alloc, "NoLength", &[]),
                RelayFault::Memory => Err(Memory),
            },
        },
    }
}

// The text that a grain gets for a message.
fn text_of(alloc: Global, permit: &Permit, message: &Message) -> Result<Vec<u8>, Memory>
    ensures { IfOk result (λ text. text.items ≡ grain_text_of permit.now (request message.now)) }
{
    match request_of(alloc, message) {
        Ok(request) => grain_text(alloc, permit, &request),
        Err(Memory) => Err(Memory),
    }
}

/// Asks the grain, counts that, and makes a message of what came back.
pub fn ask<L: Link>(
    alloc: Global,
    permit: &Permit,
    message: &Message,
    link: &mut L,
    passed: &mut u64,
) -> Result<Message, Memory>
    requires { passed.old < 18446744073709551615 }
    ensures few { passed.new ≤ passed.old + 1 }
    ensures asks { Asks (L.line link.old) (L.line link.new) passed.old passed.new permit.now message.now result }
{
    match text_of(alloc, permit, message) {
        Err(Memory) => Err(Memory),
        Ok(text) => match link.ask(alloc, permit.run, permit.grain, text.as_slice()) {
            Ok(back) => {
                *passed += 1;
                relayed(alloc, &back)
            }
            Err(AskFault::LinkFailed) => {
                *passed += 1;
                notice(alloc, "LinkFailed", &[])
            }
            Err(AskFault::Memory) => Err(Memory),
        },
    }
}

/// What is put where a message is refused.
pub fn denied(alloc: Global, reason: Denial) -> Result<Outcome, Memory>
    ensures { IfOk result (λ outcome. outcome ≡ Outcome.Denied reason (Message.Text (body_of reason))) }
{
    match denial_body(alloc, &reason) {
        Ok(body) => Ok(Outcome::Denied(reason, Message::Text(body))),
        Err(Memory) => Err(Memory),
    }
}
