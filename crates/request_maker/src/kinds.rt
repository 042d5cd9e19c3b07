//! The eight kinds of requests.

ghost use Rattle.std.specs.Prelude.{◌≡◌, ◌++◌, ◌<◌, ◌≤◌, OnOk, IfOk, codes, string_bytes};
ghost use Rattle.request_maker.specs.Requests.{api_get, key_of, post, redeem, request, revoke, seq_token_of, session_get, share, token_of};

use crate::forms::{put_api_get, put_post, put_session_get};
use host_base::{Bytes, Memory, Secrets, SeqSecrets};
use itoa::Buffer;
use share_tokens::{Secret, token_text};
use std::alloc::Global;

// The logins of the small book's accounts are the tokens of 32 bytes of these values.
const ADA: u8 = 1;

const ZOE: u8 = 2;

const BEN: u8 = 3;

const DAN: u8 = 4;

#[tactic(auto, unfolding(crate::specs::Requests::key_of))]
fn key_of(alloc: Global, value: u8) -> Result<String, Memory>
    ensures { IfOk result (λ key. string_bytes key ≡ key_of value) }
{
    let key = hex::encode(alloc, &[value; 16])?;
    Ok(key)
}

#[tactic(auto, unfolding(crate::specs::Requests::token_of))]
fn token_of(alloc: Global, value: u8) -> Result<Bytes, Memory>
    ensures { IfOk result (λ token. token ≡ token_of value) }
{
    token_text(alloc, &Secret([value; 32]))
}

// The token of the secret that a number has where secrets are drawn in sequence.
#[tactic(auto, unfolding(crate::specs::Requests::seq_token_of))]
fn seq_token_of(alloc: Global, number: u32) -> Result<Bytes, Memory>
    requires { 1 ≤ number }
    ensures { IfOk result (λ token. token ≡ seq_token_of number) }
{
    let secret = SeqSecrets::behind(number - 1).draw().unwrap();
    token_text(alloc, &Secret(secret))
}

fn put_share(
    alloc: Global,
    text: &mut Bytes,
    login: u8,
    base: &str,
    account: u64,
) -> Result<(), Memory>
    ensures { OnOk result (text.new ≡ text.old ++ share login base.now account) }
{
    let token = token_of(alloc, login)?;
    let body = format!(in alloc; "{{\"assignment\":{{\"base\":{base}}},\"to\":{account}}}")?;
    put_post(text, "/grains/1/share", token.as_slice(), body.as_bytes())
}

#[tactic(auto, unfolding(crate::specs::Requests::revoke))]
fn put_revoke(alloc: Global, text: &mut Bytes, login: u8, grant: u64) -> Result<(), Memory>
    ensures { OnOk result (text.new ≡ text.old ++ revoke login grant) }
{
    let token = token_of(alloc, login)?;
    let path = format!(in alloc; "/grants/{grant}/revoke")?;
    put_post(text, path.as_str(), token.as_slice(), b"{}")
}

#[tactic(auto, unfolding(crate::specs::Requests::redeem))]
fn put_redeem(alloc: Global, text: &mut Bytes, login: u8, redeemed: &[u8]) -> Result<(), Memory>
    ensures { OnOk result (text.new ≡ text.old ++ redeem login redeemed.now) }
{
    let token = token_of(alloc, login)?;
    let mut body = Bytes::empty(alloc);
    body.put(b"{\"token\":\"")?;
    body.put(redeemed)?;
    body.put(b"\"}")?;
    put_post(text, "/redeem", token.as_slice(), body.as_slice())
}

// Appends a POST without fields.
fn put_plain(alloc: Global, text: &mut Bytes, path: &str, login: u8) -> Result<(), Memory>
    ensures { OnOk result (text.new ≡ text.old ++ post path.now (token_of login) (codes "{}")) }
{
    let token = token_of(alloc, login)?;
    put_post(text, path, token.as_slice(), b"{}")
}

fn put_session(alloc: Global, text: &mut Bytes, value: u8) -> Result<(), Memory>
    ensures { OnOk result (text.new ≡ text.old ++ session_get (key_of value)) }
{
    let key = key_of(alloc, value)?;
    put_session_get(text, key.as_bytes())
}

fn put_borne(alloc: Global, text: &mut Bytes, number: u32) -> Result<(), Memory>
    requires { 1 ≤ number }
    ensures { OnOk result (text.new ≡ text.old ++ api_get (seq_token_of number)) }
{
    let token = seq_token_of(alloc, number)?;
    put_api_get(text, token.as_slice())
}

fn put_redeemed(alloc: Global, text: &mut Bytes, login: u8, number: u32) -> Result<(), Memory>
    requires { 1 ≤ number }
    ensures { OnOk result (text.new ≡ text.old ++ redeem login (seq_token_of number)) }
{
    let token = seq_token_of(alloc, number)?;
    put_redeem(alloc, text, login, token.as_slice())
}

/// Appends the request at a place, of a kind, with what was drawn for it.
#[tactic(auto, unfolding(crate::specs::Requests::request, crate::specs::Requests::kinds))]
pub(crate) fn put_request(
    alloc: Global,
    text: &mut Bytes,
    place: u32,
    kind: u64,
    drawn: u64,
) -> Result<(), Memory>
    requires { kind < 8 }
    ensures { OnOk result (text.new ≡ text.old ++ request place kind drawn) }
{
    let number = 1 + (drawn % 8) as u32;
    match kind {
        0 => put_session(alloc, text, 17 * (1 + (drawn % 4) as u8)),
        1 => {
            let mut role = Buffer::new();
            let role = role.format(drawn % 2);
            put_share(alloc, text, ADA, role, 2 + drawn / 2 % 3)
        }
        2 => put_share(alloc, text, ZOE, "\"all\"", 3 + drawn % 2),
        3 => put_revoke(alloc, text, ADA, 1 + drawn % (u64::from(place) + 2)),
        4 => put_plain(alloc, text, "/grains/1/link", ADA),
        5 => put_borne(alloc, text, number),
        6 => put_redeemed(alloc, text, DAN, number),
        _ => put_plain(alloc, text, "/grains/1/open", BEN),
    }
}
