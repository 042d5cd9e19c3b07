ghost use Rattle.std.specs.Prelude.{◌≡◌, ◌++◌, OnOk, IfOk};
ghost use Rattle.std.specs.List.{list_any};
ghost use Rattle.bridge_headers.specs.Lines.{lines_text, passed};
ghost use Rattle.bridge_headers.specs.Text.{HasOnlyListed, client_lines, length_lines, request_line, request_names, server_lines, shown_lines, tab_lines};
ghost use Rattle.bridge_headers.specs.Lines.{states_length};
ghost use Rattle.bridge_headers.specs.Text.{grain_text as text_of};

use crate::identity::user_id;
use crate::lines::{is_same_name, put, put_line, put_passed};
use crate::names::{escaped, joined, number_digits};
use host_base::{Field, Memory, Permit, Request, Shown, TabMark};
use itoa::Buffer;
use std::alloc::Global;

// The names of the client's lines that are passed on.
const REQUEST_NAMES: [&str; 6] = [
    "accept",
    "accept-language",
    "content-type",
    "cookie",
    "range",
    "user-agent",
];

// About how many bytes the text takes beside what is counted.
const FIXED_ROOM: usize = 512;

fn put_request_line(text: &mut Vec<u8>, request: &Request) -> Result<(), Memory>
    ensures { OnOk result (text.new.items ≡ text.old.items ++ request_line request.now) }
{
    let method = request.method.as_str();
    put(
        text,
        if method == "HEAD" {
            b"GET"
        } else {
            method.as_bytes()
        },
    )?;
    put(text, b" ")?;
    put(text, request.target.as_str().as_bytes())?;
    put(text, b" HTTP/1.1\r\n")
}

fn put_tab(text: &mut Vec<u8>, tab: &Option<TabMark>) -> Result<(), Memory>
    ensures { OnOk result (text.new.items ≡ text.old.items ++ lines_text (tab_lines tab.now)) }
{
    match tab {
        None => Ok(()),
        Some(mark) => {
            put_line(text, "X-Sandstorm-Tab-Id", &number_digits(mark.tab))?;
            let session = number_digits(u64::from(mark.session.0));
            put_line(text, "X-Sandstorm-Session-Id", &session)
        }
    }
}

fn put_shown(alloc: Global, text: &mut Vec<u8>, shown: &Shown) -> Result<(), Memory>
    ensures { OnOk result (text.new.items ≡ text.old.items ++ lines_text (shown_lines shown.now)) }
{
    match shown {
        Shown::Anonymous => put_line(text, "X-Sandstorm-Username", b"Anonymous%20User"),
        Shown::Account { num, handle, name } => {
            let name = escaped(alloc, name.as_str())?;
            put_line(text, "X-Sandstorm-Username", name.as_bytes())?;
            put_line(text, "X-Sandstorm-User-Id", &user_id(*num))?;
            let handle = handle.as_str();
            put_line(text, "X-Sandstorm-Preferred-Handle", handle.as_bytes())
        }
    }
}

fn put_server_lines(alloc: Global, text: &mut Vec<u8>, permit: &Permit) -> Result<(), Memory>
    ensures { OnOk result (text.new.items ≡ text.old.items ++ lines_text (server_lines permit.now)) }
{
    let names = joined(alloc, permit.names.as_slice())?;
    put_line(text, "Host", b"sandbox")?;
    put_line(text, "Connection", b"close")?;
    put_tab(text, &permit.tab)?;
    put_shown(alloc, text, &permit.shown)?;
    put_line(text, "X-Sandstorm-Permissions", names.as_slice())
}

fn put_client_lines(text: &mut Vec<u8>, fields: &[Field]) -> Result<(), Memory>
    ensures { OnOk result (text.new.items
        ≡ text.old.items ++ lines_text (passed request_names (client_lines fields.now))) }
{
    for field in fields {
        let (name, value) = (field.name.as_slice(), field.value.as_slice());
        put_passed(text, &REQUEST_NAMES, name, value)?;
    }
    Ok(())
}

// Whether a length was sent.
fn has_length(fields: &[Field]) -> bool
    ensures { result ≡ list_any states_length (client_lines fields.now) }
{
    for field in fields {
        if is_same_name(field.name.as_slice(), "content-length") {
            return true;
        }
    }
    false
}

fn put_length(text: &mut Vec<u8>, request: &Request) -> Result<(), Memory>
    ensures { OnOk result (text.new.items ≡ text.old.items ++ lines_text (length_lines request.now)) }
{
    if has_length(request.fields.as_slice()) {
        let mut number = Buffer::new();
        let length = number.format(request.body.len());
        put_line(text, "Content-Length", length.as_bytes())
    } else {
        Ok(())
    }
}

// How much room to take for a text at once: about what it needs, and seldom less.
fn room_for(permit: &Permit, request: &Request) -> usize {
    let mut room = FIXED_ROOM.saturating_add(request.body.len());
    room = room.saturating_add(request.target.as_str().len());
    for name in permit.names.as_slice() {
        room = room.saturating_add(name.as_str().len()).saturating_add(1);
    }
    for field in request.fields.as_slice() {
        let line = field.name.len().saturating_add(field.value.len());
        room = room.saturating_add(line).saturating_add(4);
    }
    room
}

/// The text that a grain gets for a request: its line, who asks and with which permissions, the client's lines that are passed
/// on, and the body.
pub fn grain_text(alloc: Global, permit: &Permit, request: &Request) -> Result<Vec<u8>, Memory>
    ensures text { IfOk result (λ text. text.items ≡ text_of permit.now request.now) }

    // No line of the client's is in it but those that are listed.
    ensures listed { IfOk result (λ text. HasOnlyListed permit.now request.now text.items) }
{
    let mut text = Vec::with_capacity(alloc, room_for(permit, request))?;
    put_request_line(&mut text, request)?;
    put_server_lines(alloc, &mut text, permit)?;
    put_client_lines(&mut text, request.fields.as_slice())?;
    put_length(&mut text, request)?;
    put(&mut text, b"\r\n")?;
    put(&mut text, request.body.as_slice())?;
    Ok(text)
}
