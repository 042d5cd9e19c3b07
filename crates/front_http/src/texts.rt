//! The texts of the server's own answers.
ghost use Rattle.std.specs.Prelude.{◌≡◌, ℕ, ◌++◌, [], false, map, codes, decimal, OnOk, IfOk, unwrap_or};
ghost use Rattle.std.specs.List.{join_with_byte};
ghost use Rattle.http.specs.StatusCode.{reason_phrase, IsStatusCode};
ghost use Rattle.front_http.specs.Texts as texts;

use host_base::{Bytes, Memory};
use http::StatusCode;
use itoa::Buffer;
use std::alloc::Global;

fn put_number(text: &mut Bytes, number: u64) -> Result<(), Memory>
    ensures { OnOk result (text.new ≡ text.old ++ decimal number) }
{
    let mut buffer = Buffer::new();
    text.put(buffer.format(number).as_bytes())
}

// The phrase of a status, or nothing.
fn phrase(status: u16) -> &'static str
    requires { IsStatusCode status }
    ensures { result.now ≡ unwrap_or (reason_phrase status) [] }
{
    match StatusCode::from_u16(status) {
        Ok(code) => code.canonical_reason().unwrap_or(""),
        Err(_) => "",
    }
}

#[tactic(auto, unfolding(crate::specs::Texts::status_line))]
fn put_status_line(text: &mut Bytes, status: u16) -> Result<(), Memory>
    requires { IsStatusCode status }
    ensures { OnOk result (text.new ≡ text.old ++ texts.status_line status) }
{
    text.put(b"HTTP/1.1 ")?;
    put_number(text, u64::from(status))?;
    text.put(b" ")?;
    text.put(phrase(status).as_bytes())?;
    text.put(b"\r\n")
}

#[tactic(auto, unfolding(crate::specs::Texts::media_type))]
fn media_type(plain: bool) -> &'static str
    ensures { result.now ≡ texts.media_type plain }
{
    if plain {
        "text/plain"
    } else {
        "application/json"
    }
}

#[tactic(auto, unfolding(crate::specs::Texts::length_line))]
fn put_length(text: &mut Bytes, length: usize) -> Result<(), Memory>
    ensures { OnOk result (text.new ≡ text.old ++ texts.length_line length) }
{
    text.put(b"Content-Length: ")?;
    put_number(text, length as u64)?;
    text.put(b"\r\n")
}

#[tactic(auto, unfolding(crate::specs::Texts::type_line))]
fn put_type(text: &mut Bytes, plain: bool) -> Result<(), Memory>
    ensures { OnOk result (text.new ≡ text.old ++ texts.type_line plain) }
{
    text.put(b"Content-Type: ")?;
    text.put(media_type(plain).as_bytes())?;
    text.put(b"\r\n")
}

// What is sent of a body.
fn sent_body(body: &[u8], head_only: bool) -> &[u8]
    ensures { result.now ≡ texts.sent_body body.now head_only }
{
    if head_only { &[] } else { body }
}

/// An answer of the server's own with header lines, each of which ends as one, and without its body where the head alone is asked
/// for.
#[tactic(auto, unfolding(crate::specs::Texts::lined_text))]
pub fn lined_text(
    alloc: Global,
    status: u16,
    lines: &str,
    body: &[u8],
    head_only: bool,
) -> Result<Vec<u8>, Memory>
    requires { IsStatusCode status }
    ensures { IfOk result (λ reply. reply.items ≡ texts.lined_text status lines.now body.now head_only) }
{
    let mut text = Bytes::empty(alloc);
    put_status_line(&mut text, status)?;
    put_length(&mut text, body.len())?;
    text.put(lines.as_bytes())?;
    text.put(b"\r\n")?;
    text.put(sent_body(body, head_only))?;
    Ok(text.into_vec())
}

/// An answer of the server's own, of `text/plain` where `plain` and else of JSON, and without its body where the head alone is
/// asked for.
#[tactic(auto, unfolding(crate::specs::Texts::reply_text))]
pub fn reply_text(
    alloc: Global,
    status: u16,
    plain: bool,
    body: &[u8],
    head_only: bool,
) -> Result<Vec<u8>, Memory>
    requires { IsStatusCode status }
    ensures { IfOk result (λ reply. reply.items ≡ texts.reply_text status plain body.now head_only) }
{
    let mut text = Bytes::empty(alloc);
    put_status_line(&mut text, status)?;
    put_length(&mut text, body.len())?;
    put_type(&mut text, plain)?;
    text.put(b"\r\n")?;
    text.put(sent_body(body, head_only))?;
    Ok(text.into_vec())
}

const MEMORY_HEAD: &str =
    "HTTP/1.1 500 Internal Server Error\r\nContent-Length: 26\r\nContent-Type: application/json\r\n\r\n";

const MEMORY_REPLY: &str =
    "HTTP/1.1 500 Internal Server Error\r\nContent-Length: 26\r\nContent-Type: application/json\r\n\r\n{\"error\":\"Memory\",\"of\":[]}";

/// The answer where memory ran out, which takes none.
pub fn memory_reply(head_only: bool) -> &'static [u8]
    ensures { result.now ≡ texts.reply_text 500 false (texts.refusal_body (codes "Memory") []) head_only }
{
    if head_only {
        MEMORY_HEAD.as_bytes()
    } else {
        MEMORY_REPLY.as_bytes()
    }
}

// The numbers in decimal, joined by commas.
fn put_numbers(text: &mut Bytes, numbers: &[u64]) -> Result<(), Memory>
    ensures { OnOk result (text.new ≡ text.old ++ join_with_byte 44 (map decimal numbers.now)) }
{
    match numbers {
        [] => Ok(()),
        [only] => put_number(text, *only),
        [first, rest @ ..] => {
            put_number(text, *first)?;
            text.put(b",")?;
            put_numbers(text, rest)
        }
    }
}

/// The body of a refusal or a fault: its name and its numbers.
#[tactic(auto, unfolding(crate::specs::Texts::refusal_body))]
pub fn refusal_body(alloc: Global, name: &str, numbers: &[u64]) -> Result<Bytes, Memory>
    ensures { IfOk result (λ body. body ≡ texts.refusal_body name.now numbers.now) }
{
    let mut body = Bytes::empty(alloc);
    body.put(b"{\"error\":\"")?;
    body.put(name.as_bytes())?;
    body.put(b"\",\"of\":[")?;
    put_numbers(&mut body, numbers)?;
    body.put(b"]}")?;
    Ok(body)
}
