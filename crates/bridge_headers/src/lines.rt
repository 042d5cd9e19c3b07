ghost use Rattle.std.specs.Prelude.{◌≡◌, ◌∷◌, ◌++◌, [], OnOk, map};
ghost use Rattle.std.specs.List.{list_any};
ghost use Rattle.bridge_headers.specs.Lines.{line_text, lines_text, lower, same_name, is_passed, passed};

use host_base::Memory;

const APP_PREFIX: &str = "x-sandstorm-app-";

/// Appends a piece.
pub fn put(text: &mut Vec<u8>, piece: &[u8]) -> Result<(), Memory>
    ensures { OnOk result (text.new.items ≡ text.old.items ++ piece.now) }
{
    match text.extend_from_slice(piece) {
        Ok(()) => Ok(()),
        Err(_) => Err(Memory),
    }
}

/// Appends a header line.
#[tactic(auto, unfolding(crate::specs::Lines::line_text))]
pub fn put_line(text: &mut Vec<u8>, name: &str, value: &[u8]) -> Result<(), Memory>
    ensures { OnOk result (text.new.items ≡ text.old.items ++ line_text (name.now, value.now)) }
{
    put(text, name.as_bytes())?;
    put(text, b": ")?;
    put(text, value)?;
    put(text, b"\r\n")
}

// Appends a name in lower case.
fn put_lower(text: &mut Vec<u8>, name: &[u8]) -> Result<(), Memory>
    ensures { OnOk result (text.new.items ≡ text.old.items ++ lower name.now) }
{
    for byte in name {
        if text.push(byte.to_ascii_lowercase()).is_err() {
            return Err(Memory);
        }
    }
    Ok(())
}

// Appends a header line under its name in lower case.
#[tactic(auto, unfolding(crate::specs::Lines::line_text))]
fn put_lower_line(text: &mut Vec<u8>, name: &[u8], value: &[u8]) -> Result<(), Memory>
    ensures { OnOk result (text.new.items ≡ text.old.items ++ line_text (lower name.now, value.now)) }
{
    put_lower(text, name)?;
    put(text, b": ")?;
    put(text, value)?;
    put(text, b"\r\n")
}

/// Whether two names are the same without regard to case.
#[tactic(auto, unfolding(crate::specs::Lines::same_name))]
pub fn is_same_name(name: &[u8], other: &str) -> bool
    ensures { result ≡ same_name name.now other.now }
{
    name.eq_ignore_ascii_case(other.as_bytes())
}

// Whether a name is one of those, without regard to case.
fn is_among(name: &[u8], names: &[&str]) -> bool
    ensures { result ≡ list_any (same_name name.now) (map (λ listed. listed.now) names.now) }
{
    for listed in names {
        if is_same_name(name, listed) {
            return true;
        }
    }
    false
}

// Whether lines of that name are passed on.
#[tactic(auto, unfolding(crate::specs::Lines::is_passed))]
fn passes(name: &[u8], names: &[&str]) -> bool
    ensures { result ≡ is_passed (map (λ listed. listed.now) names.now) name.now }
{
    is_among(name, names) || is_same_name(&name[..APP_PREFIX.len().min(name.len())], APP_PREFIX)
}

/// Appends a header line under its name in lower case, if lines of that name are passed on.
pub fn put_passed(
    text: &mut Vec<u8>,
    names: &[&str],
    name: &[u8],
    value: &[u8],
) -> Result<(), Memory>
    ensures { OnOk result (text.new.items
        ≡ text.old.items ++ lines_text
        (passed (map (λ listed. listed.now) names.now) ((name.now, value.now) ∷ []))) }
{
    if passes(name, names) {
        put_lower_line(text, name, value)
    } else {
        Ok(())
    }
}
