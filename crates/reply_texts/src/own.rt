//! An answer of the server's own: a status, a name and numbers.

ghost use Rattle.std.specs.Prelude.{◌≡◌, IfOk};
ghost use Rattle.http.specs.StatusCode.{IsStatusCode};
ghost use Rattle.front_http.specs.Texts as front;
ghost use Rattle.reply_texts.specs.Numbers.{list_of};
ghost use Rattle.reply_texts.specs.Texts as texts;

use front_http::{refusal_body, reply_text};
use host_base::{Bytes, Memory, Request};
use std::alloc::Global;

/// Whether a request asks for the head of an answer alone.
pub fn wants_head(request: &Request) -> bool
    ensures { result ≡ texts.wants_head request.now }
{
    request.method.as_str() == "HEAD"
}

/// An answer of the server's own: a status, a name and numbers.
pub fn own_reply(
    alloc: Global,
    status: u16,
    name: &str,
    numbers: &[u64],
    head_only: bool,
) -> Result<Bytes, Memory>
    requires { IsStatusCode status }
    ensures { IfOk result (λ reply. reply ≡ texts.own_text status name.now numbers.now head_only) }
{
    let body = refusal_body(alloc, name, numbers)?;
    let reply = reply_text(alloc, status, false, body.as_slice(), head_only)?;
    Ok(Bytes::new(reply))
}

/// The numbers of an answer, at most two.
#[derive(Clone, Copy)]
pub(crate) enum Numbers {
    Zero,
    One(u64),
    Two(u64, u64),
}

/// The body of an answer of a name and at most two numbers.
pub(crate) fn numbered_body(alloc: Global, name: &str, numbers: Numbers) -> Result<Bytes, Memory>
    ensures { IfOk result (λ body. body ≡ front.refusal_body name.now (list_of numbers)) }
{
    match numbers {
        Numbers::Zero => refusal_body(alloc, name, &[]),
        Numbers::One(number) => refusal_body(alloc, name, &[number]),
        Numbers::Two(first, second) => refusal_body(alloc, name, &[first, second]),
    }
}

/// The answer of a status, a name and at most two numbers.
pub(crate) fn numbered_reply(
    alloc: Global,
    status: u16,
    name: &str,
    numbers: Numbers,
    head_only: bool,
) -> Result<Bytes, Memory>
    requires { IsStatusCode status }
    ensures { IfOk result (λ reply. reply ≡ texts.own_text status name.now (list_of numbers) head_only) }
{
    match numbers {
        Numbers::Zero => own_reply(alloc, status, name, &[], head_only),
        Numbers::One(number) => own_reply(alloc, status, name, &[number], head_only),
        Numbers::Two(first, second) => own_reply(alloc, status, name, &[first, second], head_only),
    }
}
