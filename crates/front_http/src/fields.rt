//! What the header lines of a request head say.
ghost use Rattle.std.specs.Prelude.{◌≡◌, length, option_map, IfOk};
ghost use Rattle.front_http.specs.Heads.{is_same, values_of, lower, only, closes as closes_by, bearer_of, body_length as length_of, host_of, bearer_text};
ghost use Rattle.front_http.specs.Fields.{first_of};

use crate::number::{is_digits, number_within};
use crate::refusal::Refusal;
use host_base::{Bytes, Digest, Field, Memory, digest_of};
use std::alloc::Global;

/// The longest body, in bytes.
pub const BODY_LIMIT: usize = 1_048_576;

/// Whether two texts are equal but for ASCII case.
pub fn same_text(text: &[u8], other: &[u8]) -> bool
    ensures { result ≡ is_same text.now other.now }
{
    text.eq_ignore_ascii_case(other)
}

/// How many header lines have this name.
pub fn count_of(fields: &[Field], name: &[u8]) -> usize
    ensures { result ≡ length (values_of name.now fields.now) }
{
    let mut count = 0;
    for field in fields {
        if same_text(field.name.as_slice(), name) {
            count += 1;
        }
    }
    count
}

/// The value of the first header line of this name.
pub fn first_value<'a>(fields: &'a [Field], name: &[u8]) -> Option<&'a [u8]>
    ensures { option_map (λ value. value.now) result ≡ first_of (values_of name.now fields.now) }
{
    for field in fields {
        if same_text(field.name.as_slice(), name) {
            return Some(field.value.as_slice());
        }
    }
    None
}

/// The value of the header line of this name, where there is exactly one.
pub fn only_value<'a>(fields: &'a [Field], name: &[u8]) -> Option<&'a [u8]>
    ensures { option_map (λ value. value.now) result ≡ only (values_of name.now fields.now) }
{
    if count_of(fields, name) == 1 {
        first_value(fields, name)
    } else {
        None
    }
}

/// The length of the body behind a head with these header lines, or why the head is refused.
#[tactic(auto, unfolding(crate::specs::Heads::body_length))]
pub fn body_length(fields: &[Field]) -> Result<usize, Refusal>
    ensures { result ≡ length_of fields.now }
{
    if count_of(fields, b"Host") != 1 || count_of(fields, b"Content-Length") > 1 {
        return Err(Refusal::BadHead);
    }
    let length = match first_value(fields, b"Content-Length") {
        None => Some(0),
        Some(digits) => {
            if digits.is_empty() || !is_digits(digits) {
                return Err(Refusal::BadHead);
            }
            number_within(digits, BODY_LIMIT)
        }
    };
    if count_of(fields, b"Transfer-Encoding") > 0 {
        return Err(Refusal::NeedLength);
    }
    length.ok_or(Refusal::LongBody)
}

// The text of a credential.
fn credential(value: &[u8]) -> Option<&[u8]>
    ensures { option_map (λ text. text.now) result ≡ bearer_text value.now }
{
    if value.len() >= 7 && same_text(&value[..7], b"Bearer ") {
        Some(&value[7..])
    } else {
        None
    }
}

/// The digest of the credential, where there is exactly one.
#[tactic(auto, unfolding(crate::specs::Heads::bearer_of))]
pub fn bearer(fields: &[Field]) -> Option<Digest>
    ensures { result ≡ bearer_of fields.now }
{
    let text = credential(only_value(fields, b"Authorization")?)?;
    Some(digest_of(text))
}

/// Whether no request follows one of this minor version with these header lines.
#[tactic(auto, unfolding(crate::specs::Heads::closes))]
pub fn closes(minor: u8, fields: &[Field]) -> bool
    ensures { result ≡ closes_by minor fields.now }
{
    if minor == 0 {
        return true;
    }
    for field in fields {
        if same_text(field.name.as_slice(), b"Connection")
            && same_text(field.value.as_slice(), b"close")
        {
            return true;
        }
    }
    false
}

/// A text in ASCII lower case.
pub fn lower_text(alloc: Global, text: &[u8]) -> Result<Bytes, Memory>
    ensures { IfOk result (λ bytes. bytes ≡ lower text.now) }
{
    match text
        .iter()
        .map(|byte| byte.to_ascii_lowercase())
        .collect(alloc)
    {
        Ok(list) => Ok(Bytes::new(list)),
        Err(_) => Err(Memory),
    }
}

/// The host, in lower case.
#[tactic(auto, unfolding(crate::specs::Heads::host_of))]
pub fn host(alloc: Global, fields: &[Field]) -> Result<Bytes, Memory>
    ensures { IfOk result (λ bytes. bytes ≡ host_of fields.now) }
{
    match only_value(fields, b"Host") {
        Some(host) => lower_text(alloc, host),
        None => Ok(Bytes::empty(alloc)),
    }
}
