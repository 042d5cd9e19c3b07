//! Numbers in decimal digits.
ghost use Rattle.std.specs.Prelude.{◌≡◌, ◌<◌, ◌^◌, ◌++◌, ℕ, List, true, Some, IfSome, MatchOption};
ghost use Rattle.std.specs.List.{list_all};
ghost use Rattle.std.specs.Char.{is_ascii_digit};
ghost use Rattle.front_http.specs.Numbers.{within};
ghost use Rattle.front_http.specs.Routes.{IsNumber, HasNumber};

pub fn is_digits(text: &[u8]) -> bool
    ensures { result ≡ list_all is_ascii_digit text.now }
{
    text.iter().all(|byte| byte.is_ascii_digit())
}

/// The number of some decimal digits, if it is at most this one.
pub fn number_within(digits: &[u8], most: usize) -> Option<usize>
    requires digits { list_all is_ascii_digit digits.now ≡ true }
    requires small { most < 2 ^ 32 }
    ensures { result ≡ within most digits.now }
{
    let mut number: usize = 0;
    for digit in digits {
        number = number * 10 + (*digit - b'0') as usize;
        if number > most {
            return None;
        }
    }
    Some(number)
}

/// The number that 1 to 10 decimal digits say, leading zeros among them, if it is one of 32 bits.
pub fn path_number(digits: &[u8]) -> Option<u32>
    ensures found { IfSome result (λ n. IsNumber digits.now n) }
    ensures whole { (n : ℕ) → IsNumber digits.now n → result ≡ Some n }
{
    if digits.is_empty() || digits.len() > 10 || !is_digits(digits) {
        return None;
    }
    match number_within(digits, u32::MAX as usize) {
        Some(number) => Some(number as u32),
        None => None,
    }
}

// What stands behind a text.
fn behind_text<'a>(path: &'a [u8], before: &[u8]) -> Option<&'a [u8]>
    ensures { MatchOption result ((rest : List ℕ) → path.now ≡ before.now ++ rest
        → ⊥) (λ rest. path.now ≡ before.now ++ rest.now) }
{
    path.strip_prefix(before)
}

// What stands before a text.
fn before_text<'a>(path: &'a [u8], after: &[u8]) -> Option<&'a [u8]>
    ensures { MatchOption result ((rest : List ℕ) → path.now ≡ rest ++ after.now
        → ⊥) (λ rest. path.now ≡ rest.now ++ after.now) }
{
    path.strip_suffix(after)
}

/// The number that stands between two texts.
pub fn number_between(path: &[u8], before: &[u8], after: &[u8]) -> Option<u32>
    ensures found { IfSome result (λ n. HasNumber before.now n after.now path.now) }
    ensures whole { (n : ℕ) → HasNumber before.now n after.now path.now → result ≡ Some n }
{
    let rest = behind_text(path, before)?;
    let digits = before_text(rest, after)?;
    path_number(digits)
}
