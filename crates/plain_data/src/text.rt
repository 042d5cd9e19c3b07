ghost use Rattle.std.specs.Prelude.{◌≡◌, IfOk, MatchOption};
ghost use Rattle.std.specs.String.{string_bytes};
ghost use Rattle.std.specs.Str.{IsUtf8};

use std::alloc::{AllocError, Global};
use std::marker::Model;

/// A text of any form: UTF-8, which contracts see as its bytes.
#[derive(Debug, Drop)]
pub struct Text {
    text: String,
}

impl Model for Text {
    ghost use Rattle.std.specs.Prelude.{List, ℕ};
    ghost use Rattle.std.specs.String.{string_bytes};

    ghost Value = { List ℕ };

    ghost view = { λ text. string_bytes text.text };
}

impl Text {
    /// The text of a `String`.
    pub fn new(text: String) -> Self
        ensures { result ≡ string_bytes text }
    {
        Text { text }
    }

    /// A copy of a text.
    pub fn from_str(alloc: Global, text: &str) -> Result<Self, AllocError>
        ensures { IfOk result (λ copy. copy ≡ text.now) }
    {
        let text = String::from_str(alloc, text)?;
        Ok(Text { text })
    }

    /// The text that bytes are, or none where they aren't UTF-8.
    pub fn from_bytes(alloc: Global, bytes: &[u8]) -> Result<Option<Self>, AllocError>
        ensures { IfOk result (λ found. MatchOption found (IsUtf8 bytes.now → ⊥) (λ text. text ≡ bytes.now)) }
    {
        match str::from_utf8(bytes) {
            Ok(text) => Ok(Some(Text::from_str(alloc, text)?)),
            Err(_) => Ok(None),
        }
    }

    /// The text as a `str`.
    pub fn as_str(&self) -> &str
        ensures text { result.now ≡ self.now }
        ensures utf8 { IsUtf8 self.now }
    {
        self.text.as_str()
    }
}

impl Clone for Text {
    ghost is_clone = { λ text copy. copy ≡ text };

    fn clone(&self) -> Result<Text, AllocError> {
        let text = self.text.clone()?;
        Ok(Text { text })
    }
}
