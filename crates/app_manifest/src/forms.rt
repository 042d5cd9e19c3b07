//! The forms of texts.

ghost use Rattle.std.specs.Prelude.{◌≡◌};
ghost use Rattle.std.specs.List.{list_all};
ghost use Rattle.plain_data.specs.Name.{is_plain};
ghost use Rattle.app_manifest.specs.Text.{is_title, is_permission_byte, is_permission_name};

use plain_data::is_plain;

const TITLE_LIMIT: usize = 200;

const PERMISSION_NAME_LIMIT: usize = 64;

/// Whether a text has the form of a title: 1 to 200 bytes, and none of a control character.
pub fn is_title(text: &str) -> bool
    ensures { result ≡ is_title text.now }
{
    !text.is_empty() && text.len() <= TITLE_LIMIT && is_plain(text)
}

/// Whether a text has the form of a permission's name: 1 to 64 ASCII letters, digits, `-` or `_`.
pub fn is_permission_name(text: &str) -> bool
    ensures { result ≡ is_permission_name text.now }
{
    !text.is_empty() && text.len() <= PERMISSION_NAME_LIMIT && has_permission_bytes(text.as_bytes())
}

fn has_permission_bytes(bytes: &[u8]) -> bool
    ensures { result ≡ list_all is_permission_byte bytes.now }
{
    bytes.iter().all(|byte| is_permission_byte(*byte))
}

fn is_permission_byte(byte: u8) -> bool
    ensures { result ≡ is_permission_byte byte }
{
    byte.is_ascii_alphanumeric() || byte == b'-' || byte == b'_'
}
