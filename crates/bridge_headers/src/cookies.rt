//! Cookies, which stay on the host that they come from.
ghost use Rattle.std.specs.Prelude.{◌≡◌, take, drop};
ghost use Rattle.std.specs.List.{position_or_len};
ghost use Rattle.bridge_headers.specs.Cookies.{is_visible as is_visible_byte, begins_domain as begins_domain_text, names_domain as names_domain_text, is_foreign};

use crate::lines::is_same_name;

const SET_COOKIE: &str = "set-cookie";

const DOMAIN: &str = "domain";

// Whether a byte is no blank.
fn is_visible(byte: u8) -> bool
    ensures { result ≡ is_visible_byte byte }
{
    !(byte == b' ' || byte == b'\t')
}

// What stands behind the blanks in front.
fn without_blanks(text: &[u8]) -> &[u8]
    ensures { result.now ≡ drop (position_or_len is_visible_byte text.now) text.now }
{
    for (at, byte) in text.iter().enumerate() {
        if is_visible(*byte) {
            return &text[at..];
        }
    }
    &text[text.len()..]
}

// Whether an attribute begins with `domain`.
#[tactic(auto, unfolding(crate::specs::Cookies::begins_domain))]
fn begins_domain(text: &[u8]) -> bool
    ensures { result ≡ begins_domain_text text.now }
{
    let attribute = without_blanks(text);
    is_same_name(&attribute[..DOMAIN.len().min(attribute.len())], DOMAIN)
}

// Whether an attribute, each of which stands behind a semicolon, begins with `domain`.
fn names_domain(value: &[u8]) -> bool
    ensures { result ≡ names_domain_text value.now }
{
    for (at, byte) in value.iter().enumerate() {
        if *byte == b';' && begins_domain(value.split_at(at + 1).1) {
            return true;
        }
    }
    false
}

/// Whether a header line sets a cookie for other hosts than the one that it comes from: for all below a domain that an attribute of it
/// names, other grains and the desk among them.
#[tactic(auto, unfolding(crate::specs::Cookies::is_foreign))]
pub fn is_foreign_cookie(name: &[u8], value: &[u8]) -> bool
    ensures { result ≡ is_foreign (name.now, value.now) }
{
    is_same_name(name, SET_COOKIE) && names_domain(value)
}
