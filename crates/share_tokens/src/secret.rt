ghost use Rattle.std.specs.Prelude.{◌≡◌, length, IfOk};
ghost use Rattle.share_tokens.specs.Texts.{token_text_of, key_text_of};

use base64::engine::general_purpose::URL_SAFE_NO_PAD;
use host_base::{Bytes, Memory};
use std::alloc::Global;

/// A drawn secret. It is handed out once, as a text, and the server keeps the SHA-256 digest of that text alone.
#[derive(Clone, Copy, PartialEq, Eq)]
pub struct Secret(pub [u8; 32]);

/// The text of a secret as a token: base64 in its URL alphabet without padding (RFC 4648, section 5), 43 characters.
pub fn token_text(alloc: Global, secret: &Secret) -> Result<Bytes, Memory>
    ensures text { IfOk result (λ text. text ≡ token_text_of secret.now) }
    ensures length { IfOk result (λ text. length text ≡ 43) }
{
    token_of(alloc, &secret.0)
}

/// The text of a secret as a session's key: the lower-case hexadecimal digits of its first 16 bytes, 32 characters.
pub fn key_text(alloc: Global, secret: &Secret) -> Result<Bytes, Memory>
    ensures text { IfOk result (λ text. text ≡ key_text_of secret.now) }
    ensures length { IfOk result (λ text. length text ≡ 32) }
{
    key_of(alloc, &secret.0)
}

fn token_of(alloc: Global, bytes: &[u8]) -> Result<Bytes, Memory>
    requires { length bytes.now ≡ 32 }
    ensures text { IfOk result (λ text. text ≡ token_text_of (record { 0 = bytes.now })) }
    ensures length { IfOk result (λ text. length text ≡ 43) }
{
    let text = URL_SAFE_NO_PAD.encode(alloc, bytes)?;
    Ok(Bytes::new(text.into_bytes()))
}

fn key_of(alloc: Global, bytes: &[u8]) -> Result<Bytes, Memory>
    requires { length bytes.now ≡ 32 }
    ensures text { IfOk result (λ text. text ≡ key_text_of (record { 0 = bytes.now })) }
    ensures length { IfOk result (λ text. length text ≡ 32) }
{
    let text = hex::encode(alloc, &bytes[..16])?;
    Ok(Bytes::new(text.into_bytes()))
}
