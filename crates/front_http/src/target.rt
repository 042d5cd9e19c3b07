//! The parts of a target and of a host.
ghost use Rattle.std.specs.Prelude.{◌≡◌, ◌≤◌, ◌++◌, ◌∷◌, ℕ, List, length, codes, IfOk, IfSome, IsSomeAnd, MatchOption};
ghost use Rattle.front_http.specs.Routes.{path_of, session_text as session_text_of, is_key_end as is_key_end_of, IsUse};
ghost use Rattle.front_http.specs.Numbers.{IsCut};

use crate::find::behind;
use crate::number::path_number;
use host_base::Memory;
use plain_data::Text;
use std::alloc::Global;

/// The path of a target.
pub fn path(target: &str) -> &str
    ensures { result.now ≡ path_of target.now }
{
    match target.split_once('?') {
        Some((path, _)) => path,
        None => target,
    }
}

fn is_key_end(byte: u8) -> bool
    ensures { result ≡ is_key_end_of byte }
{
    byte == b'.' || byte == b':'
}

/// The text of a session's key in a host.
pub fn session_text(host: &[u8]) -> &[u8]
    requires { 3 ≤ length host.now }
    ensures { result.now ≡ session_text_of host.now }
{
    let text = behind(host, 3);
    for (at, byte) in text.iter().enumerate() {
        if is_key_end(*byte) {
            return &text[..at];
        }
    }
    text
}

// What stands before the first slash and behind it.
fn cut(text: &str) -> Option<(&str, &str)>
    ensures { IsCut text.now result }
{
    text.split_once('/')
}

// What stands behind `/use/`.
fn behind_use(target: &str) -> Option<&str>
    ensures { MatchOption result ((rest : List ℕ) → target.now ≡ codes "/use/" ++ rest
        → ⊥) (λ rest. target.now ≡ codes "/use/" ++ rest.now) }
{
    target.strip_prefix("/use/")
}

/// The number of a target `/use/{n}/`, and what stands behind its slash.
pub fn use_parts(target: &str) -> Option<(u32, &str)>
    ensures found { IfSome result (λ parts. IsUse parts.0 target.now parts.1.now) }
    ensures whole { (n : ℕ) (rest : List ℕ) → IsUse n target.now rest
        → IsSomeAnd result (λ parts. (parts.0 ≡ n) × (parts.1.now ≡ rest)) }
{
    let (digits, rest) = cut(behind_use(target)?)?;
    let number = path_number(digits.as_bytes())?;
    Some((number, rest))
}

/// What a target `/use/{n}/` passes on: a slash, and all that stands behind its slash.
pub fn use_target(alloc: Global, target: &str) -> Result<Option<Text>, Memory>
    ensures { IfOk result (λ found. MatchOption found ((n : ℕ) (rest : List ℕ) → IsUse n target.now rest
        → ⊥) (λ text. (n : ℕ) × (rest : List ℕ) × IsUse n target.now rest × (text ≡ 47 ∷ rest))) }
{
    let Some((_, rest)) = use_parts(target) else {
        return Ok(None);
    };
    let mut text = String::from_str(alloc, "/")?;
    text.push_str(rest)?;
    Ok(Some(Text::new(text)))
}
