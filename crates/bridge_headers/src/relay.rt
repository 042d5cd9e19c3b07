ghost use Rattle.std.specs.Prelude.{◌≡◌, ◌≢◌, ℕ, ◌<◌, ◌≤◌, ◌++◌, ◌∷◌, List, [], All, IfErr, IfOk, OnOk, Some, Result, Ok, Err, length, map, take, unwrap_or};
ghost use Rattle.http.specs.StatusCode.{reason_phrase};
ghost use Rattle.httparse.specs.Spans.{header_bytes, IsHeaderWithin};
ghost use Rattle.bridge_headers.specs.Lines.{lines_text};
ghost use Rattle.bridge_headers.specs.Relay.{Relays, answer_lines, length_lines, relay, relay_text as text_of, status_line};
ghost use Rattle.bridge_headers.specs.Spans.{head_of};

use crate::cookies::is_foreign_cookie;
use crate::fault::RelayFault;
use crate::framing::{end_of, is_bodiless};
use crate::head::{HeadSpans, read_head, run_end};
use crate::lines::{put, put_line, put_passed};
use host_base::{Answer, Memory};
use http::StatusCode;
use httparse::spans::HeaderSpan;
use itoa::Buffer;
use std::alloc::Global;

// The names of the answer's lines that may be passed on.
const ANSWER_NAMES: [&str; 8] = [
    "content-type",
    "content-language",
    "content-encoding",
    "content-disposition",
    "content-range",
    "accept-ranges",
    "location",
    "set-cookie",
];

// About how many bytes a head takes beside the lines that are passed on.
const FIXED_ROOM: usize = 128;

// The phrase of a status, or nothing.
fn phrase_of(status: u16) -> &'static str
    requires from { 200 ≤ status }
    requires below { status < 600 }
    ensures { result.now ≡ unwrap_or (reason_phrase status) [] }
{
    match StatusCode::from_u16(status) {
        Ok(code) => match code.canonical_reason() {
            Some(phrase) => phrase,
            None => "",
        },
        Err(_) => unreachable!(),
    }
}

fn put_status_line(text: &mut Vec<u8>, status: u16) -> Result<(), Memory>
    requires from { 200 ≤ status }
    requires below { status < 600 }
    ensures { OnOk result (text.new.items ≡ text.old.items ++ status_line status) }
{
    let mut number = Buffer::new();
    put(text, b"HTTP/1.1 ")?;
    put(text, number.format(status).as_bytes())?;
    put(text, b" ")?;
    put(text, phrase_of(status).as_bytes())?;
    put(text, b"\r\n")
}

fn put_length(text: &mut Vec<u8>, status: u16, length: usize) -> Result<(), Memory>
    ensures { OnOk result (text.new.items ≡ text.old.items ++ lines_text (length_lines status length)) }
{
    if is_bodiless(status) {
        Ok(())
    } else {
        let mut number = Buffer::new();
        put_line(text, "Content-Length", number.format(length).as_bytes())
    }
}

// Appends a line of an answer, if it is passed on.
fn put_answer_line(text: &mut Vec<u8>, name: &[u8], value: &[u8]) -> Result<(), Memory>
    ensures { OnOk result (text.new.items
        ≡ text.old.items ++ lines_text (answer_lines ((name.now, value.now) ∷ []))) }
{
    if is_foreign_cookie(name, value) {
        Ok(())
    } else {
        put_passed(text, &ANSWER_NAMES, name, value)
    }
}

fn put_answer_lines(text: &mut Vec<u8>, head: &[u8], fields: &[HeaderSpan]) -> Result<(), Memory>
    requires { All (IsHeaderWithin (length head.now)) fields.now }
    ensures { OnOk result (text.new.items
        ≡ text.old.items ++ lines_text (answer_lines (map (header_bytes head.now) fields.now))) }
{
    for field in fields {
        let (name, value) = (field.name.of(head), field.value.of(head));
        put_answer_line(text, name, value)?;
    }
    Ok(())
}

// What a client gets of an answer with that head and body.
fn relay_text(
    alloc: Global,
    head: &[u8],
    spans: &HeadSpans,
    body: &[u8],
    head_only: bool,
) -> Result<Vec<u8>, Memory>
    requires within { All (IsHeaderWithin (length head.now)) spans.now.fields.items }
    requires from { 200 ≤ spans.now.status }
    requires below { spans.now.status < 600 }
    ensures { IfOk result (λ text. text.items ≡ text_of (head_of head.now spans.now) body.now head_only) }
{
    let sent = if head_only { &body[..0] } else { body };
    let room = FIXED_ROOM
        .saturating_add(head.len())
        .saturating_add(sent.len());
    let mut text = Vec::with_capacity(alloc, room)?;
    put_status_line(&mut text, spans.status)?;
    put_length(&mut text, spans.status, body.len())?;
    put_answer_lines(&mut text, head, spans.fields.as_slice())?;
    put(&mut text, b"\r\n")?;
    put(&mut text, sent)?;
    Ok(text)
}

// The relay of bytes that begin with that head.
fn relay_by(
    alloc: Global,
    bytes: &[u8],
    size: usize,
    spans: &HeadSpans,
    head_only: bool,
) -> Result<Vec<u8>, RelayFault>
    requires front { size ≤ length bytes.now }
    requires short { length bytes.now ≤ 4194305 }
    requires within { All (IsHeaderWithin size) spans.now.fields.items }
    ensures ok { IfOk result (λ text. relay (Some (head_of (take size bytes.now) spans.now)) bytes.now
        head_only ≡ Ok text.items) }
    ensures err { IfErr result (λ fault. fault ≢ RelayFault.Memory
        → relay (Some (head_of (take size bytes.now) spans.now)) bytes.now head_only ≡ Err fault) }
{
    let (head, body) = (&bytes[..size], &bytes[size..]);
    let end = match end_of(head, spans) {
        Ok(end) => end,
        Err(fault) => return Err(fault),
    };
    let length = bytes.len() as u64;
    if length != end {
        return Err(RelayFault::BadAnswer(end.min(length)));
    }
    match relay_text(alloc, head, spans, body, head_only) {
        Ok(text) => Ok(text),
        Err(Memory) => Err(RelayFault::Memory),
    }
}

/// What a client gets of a grain's answer, or of its head alone, or why it gets nothing of it.
pub fn answer_text(alloc: Global, answer: &Answer, head_only: bool) -> Result<Vec<u8>, RelayFault>
    ensures relayed { IfOk result (λ text. Relays answer.now head_only (Ok text.items)) }
    ensures refused { IfErr result (λ fault. fault ≢ RelayFault.Memory
        → Relays answer.now head_only (Err fault)) }
{
    let bytes = answer.as_slice();
    let Some(size) = run_end(bytes) else {
        return Err(RelayFault::BadAnswer(0));
    };
    let Ok(found) = read_head(alloc, &bytes[..size]) else {
        return Err(RelayFault::Memory);
    };
    match found {
        None => Err(RelayFault::BadAnswer(0)),
        Some(spans) => relay_by(alloc, bytes, size, &spans, head_only),
    }
}
