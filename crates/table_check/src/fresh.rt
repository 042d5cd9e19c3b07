ghost use Rattle.std.specs.Prelude.{◌≡◌, ◌≢◌, ◌↔◌, IsTrue, All, Some, take};
ghost use Rattle.std.specs.List.{list_all};
ghost use Rattle.share_graph.specs.Fresh.{NoLogin, NoToken, NoReference, IsFreshLogin, IsNewToken, IsFreshToken, IsFreshReference, IsFreshHandle, is_small_letter, is_handle_byte, is_handle};

use host_base::Digest;
use plain_data::Name;
use share_graph::{
    Account, Grant, Rows, Saved, Tables, by_grant_token, by_login, handle_before, login_before,
    reference_before, token_before,
};

fn no_login(accounts: &Rows<Account>, place: usize, digest: &Digest) -> bool
    ensures { IsTrue result ↔ NoLogin (take place accounts.now) digest.now }
{
    match login_before(accounts, place, digest) {
        None => true,
        Some(_) => false,
    }
}

fn no_login_at_all(tables: &Tables, digest: &Digest) -> bool
    ensures { IsTrue result ↔ NoLogin tables.now.accounts digest.now }
{
    match by_login(tables, digest) {
        None => true,
        Some(_) => false,
    }
}

fn no_token(grants: &Rows<Grant>, place: usize, digest: &Digest) -> bool
    ensures { IsTrue result ↔ NoToken (take place grants.now) digest.now }
{
    match token_before(grants, place, digest) {
        None => true,
        Some(_) => false,
    }
}

fn no_token_at_all(tables: &Tables, digest: &Digest) -> bool
    ensures { IsTrue result ↔ NoToken tables.now.grants digest.now }
{
    match by_grant_token(tables, digest) {
        None => true,
        Some(_) => false,
    }
}

fn no_reference(saved: &Rows<Saved>, place: usize, digest: &Digest) -> bool
    ensures { IsTrue result ↔ NoReference (take place saved.now) digest.now }
{
    match reference_before(saved, place, digest) {
        None => true,
        Some(_) => false,
    }
}

/// Whether no account before the one at a place has its login.
pub(crate) fn is_fresh_login(tables: &Tables, place: usize, account: &Account) -> bool
    ensures { IsTrue result ↔ IsFreshLogin tables.now place account.now }
{
    no_login(&tables.accounts, place, &account.login)
}

fn is_new_token(tables: &Tables, place: usize, digest: &Digest) -> bool
    ensures { IsTrue result ↔ IsNewToken tables.now place digest.now }
{
    no_login_at_all(tables, digest) && no_token(&tables.grants, place, digest)
}

/// Whether no row before the grant at a place has its digest.
pub(crate) fn is_fresh_token(tables: &Tables, place: usize, grant: &Grant) -> bool
    ensures { IsTrue result ↔ IsFreshToken tables.now place grant.now.digest }
{
    match &grant.digest {
        None => true,
        Some(digest) => is_new_token(tables, place, digest),
    }
}

/// Whether no row before the saved reference at a place has its digest.
pub(crate) fn is_fresh_reference(tables: &Tables, place: usize, saved: &Saved) -> bool
    ensures { IsTrue result ↔ IsFreshReference tables.now place saved.now }
{
    no_login_at_all(tables, &saved.digest)
        && no_token_at_all(tables, &saved.digest)
        && no_reference(&tables.saved, place, &saved.digest)
}

/// Whether no account before the one at a place has its handle.
pub(crate) fn is_fresh_handle(tables: &Tables, place: usize, account: &Account) -> bool
    ensures { IsTrue result ↔ IsFreshHandle tables.now place account.now }
{
    match handle_before(&tables.accounts, place, &account.handle) {
        None => true,
        Some(_) => false,
    }
}

fn letter(byte: u8) -> bool
    ensures { result ≡ is_small_letter byte }
{
    97 <= byte && byte <= 122
}

fn handle_byte(byte: u8) -> bool
    ensures { result ≡ is_handle_byte byte }
{
    letter(byte) || 48 <= byte && byte <= 57 || byte == 95
}

fn handle_bytes(text: &[u8]) -> bool
    ensures { result ≡ list_all is_handle_byte text.now }
{
    text.iter().all(|byte| handle_byte(*byte))
}

fn has_handle_form(text: &[u8]) -> bool
    ensures { result ≡ is_handle text.now }
{
    match text {
        [] => false,
        [first, ..] => letter(*first) && text.len() <= 32 && handle_bytes(text),
    }
}

/// Whether a name has the form of a handle.
pub fn is_handle_name(name: &Name) -> bool
    ensures { result ≡ is_handle name.now }
{
    has_handle_form(name.as_str().as_bytes())
}
