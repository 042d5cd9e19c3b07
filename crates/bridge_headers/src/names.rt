ghost use Rattle.std.specs.Prelude.{◌≡◌, IfOk};
ghost use Rattle.std.specs.List.{join_with_byte};
ghost use Rattle.std.specs.String.{string_bytes};
ghost use Rattle.bridge_headers.specs.Text.{name_text, number_text};

use host_base::{Bytes, Memory};
use percent_encoding::{AsciiSet, NON_ALPHANUMERIC, ascii_set, percent_encode};
use plain_data::Name;
use std::alloc::Global;

/// The bytes of a user's name that are escaped: all but letters, digits, `-`, `_`, `.` and `~`.
pub const ESCAPED: AsciiSet = ascii_set!(
    NON_ALPHANUMERIC
        .remove(b'-')
        .remove(b'_')
        .remove(b'.')
        .remove(b'~')
);

/// A name with every byte escaped that a header line's word can't hold.
pub fn escaped(alloc: Global, name: &str) -> Result<String, Memory>
    ensures { IfOk result (λ text. string_bytes text ≡ name_text name.now) }
{
    let mut text = String::new(alloc);
    match percent_encode(name.as_bytes(), ESCAPED).append_to(&mut text) {
        Ok(()) => Ok(text),
        Err(_) => Err(Memory),
    }
}

/// A number as 16 hexadecimal digits.
#[tactic(auto, unfolding(crate::specs::Text::number_text))]
pub fn number_digits(number: u64) -> [u8; 16]
    ensures { result ≡ number_text number }
{
    let mut digits = [0u8; 16];
    match hex::encode_to_slice(number.to_be_bytes().as_slice(), &mut digits) {
        Ok(()) => digits,
        Err(_) => unreachable!(),
    }
}

/// The names, joined by commas.
pub fn joined(alloc: Global, names: &[Name]) -> Result<Bytes, Memory>
    ensures { IfOk result (λ text. text ≡ join_with_byte 44 names.now) }
{
    let mut text = Bytes::empty(alloc);
    for (i, name) in names.iter().enumerate() {
        if i > 0 {
            text.put(b",")?;
        }
        text.put(name.as_str().as_bytes())?;
    }
    Ok(text)
}
