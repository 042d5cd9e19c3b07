ghost use Rattle.std.specs.Prelude.{◌≡◌, MatchOption, IfOk, true};
ghost use Rattle.std.specs.String.{string_bytes};
ghost use Rattle.std.specs.List.{list_all};
ghost use Rattle.plain_data.specs.Name.{IsName, is_plain, is_plain_byte};

use std::alloc::{AllocError, Global};
use std::marker::Model;

/// The most bytes that a name has.
pub const NAME_LIMIT: usize = 2000;

/// A text of a row: at most 2,000 bytes of UTF-8, no byte of which is below 32 or 127.
#[derive(Debug, Drop)]
pub struct Name {
    text: String,
}

impl Model for Name {
    ghost use Rattle.std.specs.Prelude.{List, ℕ};
    ghost use Rattle.std.specs.String.{string_bytes};
    ghost use Rattle.plain_data.specs.Name.{IsName};

    ghost Value = { List ℕ };

    ghost view = { λ name. string_bytes name.text };

    ghost invariant = { λ name. IsName (string_bytes name.text) };
}

impl Name {
    /// The name that a text is, or none where it hasn't the form of one.
    pub fn new(text: String) -> Option<Self>
        ensures { MatchOption result (IsName (string_bytes text) → ⊥) (λ name. name ≡ string_bytes text) }
    {
        if is_plain(text.as_str()) {
            Some(Name { text })
        } else {
            None
        }
    }

    /// The name that a text is, or none where it hasn't the form of one.
    pub fn from_str(alloc: Global, text: &str) -> Result<Option<Self>, AllocError>
        ensures { IfOk result (λ found. MatchOption found (IsName text.now → ⊥) (λ name. name ≡ text.now)) }
    {
        if is_plain(text) {
            let text = String::from_str(alloc, text)?;
            Ok(Some(Name { text }))
        } else {
            Ok(None)
        }
    }

    /// The name that bytes are, or none where they are no text of the form of one.
    pub fn from_bytes(alloc: Global, bytes: &[u8]) -> Result<Option<Self>, AllocError>
        ensures { IfOk result (λ found. MatchOption found (IsName bytes.now → ⊥) (λ name. name ≡ bytes.now)) }
    {
        match str::from_utf8(bytes) {
            Ok(text) => Name::from_str(alloc, text),
            Err(_) => Ok(None),
        }
    }

    /// The name that a literal text is.
    pub fn from_plain(alloc: Global, text: &str) -> Result<Self, AllocError>
        requires { is_plain text.now ≡ true }
        ensures { IfOk result (λ name. name ≡ text.now) }
    {
        let text = String::from_str(alloc, text)?;
        Ok(Name { text })
    }

    /// The text of the name.
    pub fn as_str(&self) -> &str
        ensures text { result.now ≡ self.now }
        ensures form { IsName self.now }
    {
        self.text.as_str()
    }
}

impl Clone for Name {
    ghost is_clone = { λ name copy. copy ≡ name };

    fn clone(&self) -> Result<Name, AllocError> {
        let text = self.text.clone()?;
        Ok(Name { text })
    }
}

impl PartialEq for Name {
    ghost use Rattle.std.specs.Str.{bytes_eq};
    ghost use Rattle.std.specs.Cmp.Rules.{comparing};
    ghost use Rattle.std.proofs.Common.{rules};

    ghost eq = { bytes_eq };

    ghost laws = { Prim.search (comparing, rules) };

    fn eq(&self, other: &Name) -> bool {
        self.text == other.text
    }
}

impl Eq for Name {
    ghost use Rattle.std.specs.Cmp.Rules.{comparing};
    ghost use Rattle.std.proofs.Common.{rules};

    ghost laws = { Prim.search (comparing, rules) };
}

fn has_plain_byte(byte: u8) -> bool
    ensures { result ≡ is_plain_byte byte }
{
    byte >= 32 && byte != 127
}

fn has_plain_bytes(text: &[u8]) -> bool
    ensures { result ≡ list_all is_plain_byte text.now }
{
    text.iter().all(|byte| has_plain_byte(*byte))
}

/// Whether a text has the form of a name.
pub fn is_plain(text: &str) -> bool
    ensures { result ≡ is_plain text.now }
{
    text.len() <= NAME_LIMIT && has_plain_bytes(text.as_bytes())
}
