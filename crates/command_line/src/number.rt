//! Numbers among the words.

ghost use Rattle.std.specs.Prelude.{◌≡◌, ◌<◌, ◌^◌, ℕ, MatchOption};
ghost use Rattle.command_line.specs.Words.{IsCount, IsDecimalOf, IsNumber};

// The most digits that a number has.
const MOST_DIGITS: usize = 10;

/// The number that a word of 1 to 10 decimal digits says, leading zeros among them.
pub(crate) fn number_of(word: &str) -> Option<u64>
    ensures { MatchOption result ((n : ℕ) → IsDecimalOf word.now n → ⊥) (IsDecimalOf word.now) }
{
    if word.len() > MOST_DIGITS || word.starts_with('+') {
        return None;
    }
    match word.parse::<u64>() {
        Ok(number) => Some(number),
        Err(_) => None,
    }
}

/// The number from 1 to a limit that a word says.
pub(crate) fn count_of(word: &str, limit: u32) -> Option<u32>
    ensures { MatchOption result ((n : ℕ) → IsCount limit word.now n → ⊥) (IsCount limit word.now) }
{
    match number_of(word) {
        Some(number) if 1 <= number && number <= u64::from(limit) => Some(number as u32),
        _ => None,
    }
}

/// The number of 32 bits that a word says, as that of a grain or a grant.
pub(crate) fn row_of(word: &str) -> Option<u32>
    ensures { MatchOption result ((n : ℕ) → IsNumber word.now n → ⊥) (IsNumber word.now) }
{
    match number_of(word) {
        Some(number) if number <= u64::from(u32::MAX) => Some(number as u32),
        _ => None,
    }
}
