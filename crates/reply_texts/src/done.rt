//! The answers to commands that are done.

ghost use Rattle.std.specs.Prelude.{◌≡◌, ◌++◌, codes, drop, flat_map, option_map, OnOk, IfOk};
ghost use Rattle.reply_texts.specs.Done as done;
ghost use Rattle.reply_texts.specs.DoneParts.{with_comma, number_part, text_part};

use front_http::reply_text;
use host_base::{Bytes, Memory};
use itoa::Buffer;
use share_graph::Made;
use std::alloc::Global;

/// The text of a secret that an answer hands out: as a token, or as a session's key. It is written as it is, so it must be one
/// that JSON writes without an escape, as base64 in the URL alphabet and hexadecimal digits are.
#[derive(Drop)]
pub enum Handed {
    Nothing,
    Token(Bytes),
    Key(Bytes),
}

// A comma and the beginning of a member.
fn put_key(members: &mut Bytes, key: &str) -> Result<(), Memory>
    ensures { OnOk result (members.new ≡ members.old ++ codes ",\"" ++ key.now ++ codes "\":") }
{
    members.put(b",\"")?;
    members.put(key.as_bytes())?;
    members.put(b"\":")
}

// A comma and a member with a number, where there is one.
fn put_number(members: &mut Bytes, key: &str, number: Option<u32>) -> Result<(), Memory>
    ensures { OnOk result (members.new ≡ members.old ++ number_part key.now number) }
{
    let Some(number) = number else {
        return Ok(());
    };
    put_key(members, key)?;
    let mut buffer = Buffer::new();
    members.put(buffer.format(number).as_bytes())
}

// A comma and a member with a text, where there is one.
fn put_text(members: &mut Bytes, key: &str, text: Option<&Bytes>) -> Result<(), Memory>
    ensures { OnOk result (members.new ≡ members.old
        ++ text_part key.now (option_map (λ t. t.now) text.entry)) }
{
    let Some(text) = text else {
        return Ok(());
    };
    put_key(members, key)?;
    members.put(b"\"")?;
    members.put(text.as_slice())?;
    members.put(b"\"")
}

fn token_of(handed: &Handed) -> Option<&Bytes>
    ensures { option_map (λ t. t.now) result ≡ done.token_of handed.now }
{
    match handed {
        Handed::Token(text) => Some(text),
        Handed::Nothing | Handed::Key(_) => None,
    }
}

fn key_of(handed: &Handed) -> Option<&Bytes>
    ensures { option_map (λ t. t.now) result ≡ done.key_of handed.now }
{
    match handed {
        Handed::Key(text) => Some(text),
        Handed::Nothing | Handed::Token(_) => None,
    }
}

fn put_rows(members: &mut Bytes, made: &Made) -> Result<(), Memory>
    ensures { OnOk result (members.new ≡ members.old
        ++ number_part (codes "account") made.now.account
        ++ number_part (codes "app") made.now.app
        ++ number_part (codes "grain") made.now.grain) }
{
    put_number(members, "account", made.account)?;
    put_number(members, "app", made.app)?;
    put_number(members, "grain", made.grain)
}

fn put_shares(members: &mut Bytes, made: &Made, handed: &Handed) -> Result<(), Memory>
    ensures { OnOk result (members.new ≡ members.old
        ++ number_part (codes "grant") made.now.grant
        ++ number_part (codes "handle") made.now.handle
        ++ text_part (codes "key") (done.key_of handed.now)) }
{
    put_number(members, "grant", made.grant)?;
    put_number(members, "handle", made.handle)?;
    put_text(members, "key", key_of(handed))
}

fn put_others(members: &mut Bytes, made: &Made, handed: &Handed) -> Result<(), Memory>
    ensures { OnOk result (members.new ≡ members.old
        ++ number_part (codes "saved") made.now.saved
        ++ number_part (codes "session") made.now.session
        ++ text_part (codes "token") (done.token_of handed.now)) }
{
    put_number(members, "saved", made.saved)?;
    put_number(members, "session", made.session)?;
    put_text(members, "token", token_of(handed))
}

// The members in the order of their keys, each with a comma before it.
#[tactic(auto, using(crate::proofs::Members::in_order))]
fn put_members(members: &mut Bytes, made: &Made, handed: &Handed) -> Result<(), Memory>
    ensures { OnOk result (members.new
        ≡ members.old ++ flat_map with_comma (done.members made.now handed.now)) }
{
    put_rows(members, made)?;
    put_shares(members, made, handed)?;
    put_others(members, made, handed)
}

// A text without its first byte.
fn behind_first(text: &[u8]) -> &[u8]
    ensures { result.now ≡ drop 1 text.now }
{
    match text {
        [] => &[],
        [_, rest @ ..] => rest,
    }
}

#[tactic(auto, using(crate::proofs::Members::joined))]
fn done_body(alloc: Global, made: &Made, handed: &Handed) -> Result<Bytes, Memory>
    ensures { IfOk result (λ body. body ≡ done.done_body made.now handed.now) }
{
    let mut members = Bytes::empty(alloc);
    put_members(&mut members, made, handed)?;
    let mut body = Bytes::empty(alloc);
    body.put(b"{")?;
    body.put(behind_first(members.as_slice()))?;
    body.put(b"}")?;
    Ok(body)
}

/// The answer to a command that is done: what it made, and the text of a secret that it hands out.
pub fn done_reply(
    alloc: Global,
    made: &Made,
    handed: &Handed,
    head_only: bool,
) -> Result<Bytes, Memory>
    ensures { IfOk result (λ reply. reply ≡ done.done_text made.now handed.now head_only) }
{
    let body = done_body(alloc, made, handed)?;
    let reply = reply_text(alloc, 200, false, body.as_slice(), head_only)?;
    Ok(Bytes::new(reply))
}
