ghost use Rattle.std.specs.Prelude.{◌≡◌, ◌<◌, ◌≤◌, All, length, map};
ghost use Rattle.std.specs.List.{list_any};
ghost use Rattle.httparse.specs.Spans.{header_bytes, IsHeaderWithin};
ghost use Rattle.bridge_headers.specs.Relay.{is_bodiless as bodiless, is_relayed as relayed, end_of as stated_end, length_value, stated, states_encoding};
ghost use Rattle.bridge_headers.specs.Spans.{head_of, with_value};

use crate::fault::RelayFault;
use crate::head::HeadSpans;
use crate::lines::is_same_name;
use crate::stated::Stated;
use httparse::spans::HeaderSpan;

// A length has at most ten digits.
const MOST_DIGITS: usize = 10;

// What the value of a length line states.
fn length_of(value: &[u8]) -> Stated
    ensures { result ≡ length_value value.now }
{
    if value.is_empty() || value.len() > MOST_DIGITS {
        return Stated::Bad;
    }
    let mut number = 0u64;
    for byte in value {
        if !byte.is_ascii_digit() {
            return Stated::Bad;
        }
        number = number * 10 + u64::from(byte - b'0');
    }
    Stated::Bytes(number)
}

// What two length lines state together, where the first ones state that.
fn further(found: Stated, value: &[u8]) -> Stated
    ensures { result ≡ with_value found (length_value value.now) }
{
    match found {
        Stated::Nothing => length_of(value),
        Stated::Bytes(_) | Stated::Bad => Stated::Bad,
    }
}

// What the length lines of a head state.
fn stated_length(head: &[u8], fields: &[HeaderSpan]) -> Stated
    requires { All (IsHeaderWithin (length head.now)) fields.now }
    ensures { result ≡ stated (map (header_bytes head.now) fields.now) }
{
    let mut found = Stated::Nothing;
    for field in fields {
        if is_same_name(field.name.of(head), "content-length") {
            found = further(found, field.value.of(head));
        }
    }
    found
}

// Whether a head names a transfer encoding.
fn has_encoding(head: &[u8], fields: &[HeaderSpan]) -> bool
    requires { All (IsHeaderWithin (length head.now)) fields.now }
    ensures { result ≡ list_any states_encoding (map (header_bytes head.now) fields.now) }
{
    for field in fields {
        if is_same_name(field.name.of(head), "transfer-encoding") {
            return true;
        }
    }
    false
}

// Whether answers of a status are relayed.
fn is_relayed(status: u16) -> bool
    ensures { result ≡ relayed status }
{
    (200..600).contains(&status)
}

/// Whether answers of a status have no body.
pub fn is_bodiless(status: u16) -> bool
    ensures { result ≡ bodiless status }
{
    status == 204 || status == 304
}

/// Where an answer of that head has to end, or why it isn't relayed.
pub fn end_of(head: &[u8], spans: &HeadSpans) -> Result<u64, RelayFault>
    requires within { All (IsHeaderWithin (length head.now)) spans.now.fields.items }
    requires short { length head.now ≤ 4194305 }
    ensures { result ≡ stated_end (head_of head.now spans.now) }
{
    if !is_relayed(spans.status) {
        return Err(RelayFault::BadAnswer(0));
    }
    let fields = spans.fields.as_slice();
    let size = head.len() as u64;
    match stated_length(head, fields) {
        Stated::Bad => Err(RelayFault::BadAnswer(0)),
        Stated::Nothing => {
            if has_encoding(head, fields) {
                Err(RelayFault::NoLength)
            } else if is_bodiless(spans.status) {
                Ok(size)
            } else {
                Err(RelayFault::NoLength)
            }
        }
        Stated::Bytes(length) => {
            if has_encoding(head, fields) {
                Err(RelayFault::NoLength)
            } else if is_bodiless(spans.status) {
                Ok(size)
            } else {
                Ok(size + length)
            }
        }
    }
}
