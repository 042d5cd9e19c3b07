ghost use Rattle.std.specs.Prelude.{◌≡◌, fold};
ghost use Rattle.row_index.specs.Clues.{mixed, text_clue, number_clue};

use crate::ways::Link;

// The prime of the hash of Fowler, Noll and Vo for 64 bits.
const SPREAD: u64 = 1_099_511_628_211;

// A clue with one number more in it.
fn mixed(clue: u64, number: u64) -> u64
    ensures { result ≡ mixed clue number }
{
    clue.wrapping_mul(SPREAD).wrapping_add(number)
}

/// The clue of a text. Equal texts have equal clues, and seldom have others the same.
pub fn text_clue(text: &[u8]) -> u64
    ensures { result ≡ text_clue text.now }
{
    text.iter()
        .fold(0, |clue, byte| mixed(clue, u64::from(*byte)))
}

/// The clue of two numbers, for a kind of keys. Equal ones have equal clues, and seldom have others the same.
pub fn number_clue(kind: u64, first: u64, second: u64) -> u64
    ensures { result ≡ number_clue kind first second }
{
    mixed(mixed(kind, first), second)
}

/// The clues of a row: one for each of its keys.
#[derive(Clone, Copy, PartialEq, Eq)]
pub struct Clues {
    pub first: Option<u64>,
    pub second: Option<u64>,
    pub third: Option<u64>,
}

/// How a row stands in an index.
#[derive(Clone, Copy, PartialEq, Eq)]
pub struct Standing {
    /// The clues of its keys.
    pub clues: Clues,
    /// Its mark, if it has one.
    pub mark: Option<u64>,
    /// Under which row it stands, and whether it is flagged.
    pub link: Link,
}

/// A row that is found by its keys, counted by its mark, and followed by its link.
pub trait Keyed {
    ghost use Rattle.std.specs.Prelude.{◌≡◌, ℕ, Option, None, false};
    ghost use Rattle.row_index.specs.declared.clues.Clues.{Clues};
    ghost use Rattle.row_index.specs.declared.ways.Link.{Link};

    // Its clues. Equal rows have equal ones.
    ghost clues_of: { Self → Clues };

    // Its mark, if it has one: none, unless its impl says which.
    ghost mark_of: { Self → Option ℕ } = { λ _. None };

    // How it stands among the others: under none, unless its impl says how.
    ghost link_of: { Self → Link } = { λ _. record { parent = None; flagged = false } };

    /// Its clues, its mark and its link.
    fn standing(&self) -> Standing
        ensures clues { result.clues ≡ clues_of self.now }
        ensures mark { result.mark ≡ mark_of self.now }
        ensures link { result.link ≡ link_of self.now };

    /// The clues of its keys.
    final fn clues(&self) -> Clues
        ensures { result ≡ clues_of self.now }
    {
        self.standing().clues
    }

    /// Its mark, if it has one.
    final fn mark(&self) -> Option<u64>
        ensures { result ≡ mark_of self.now }
    {
        self.standing().mark
    }

    /// Under which row it stands, and whether it is flagged.
    final fn link(&self) -> Link
        ensures { result ≡ link_of self.now }
    {
        self.standing().link
    }
}
