//! How many came out as written, and how what goes otherwise is told.

use std::alloc::{AllocError, Global};
use std::io;

/// How many rows or conversations came out as they are written, and how many didn't.
#[derive(Clone, Copy, Default)]
pub struct Tally {
    pub passed: u64,
    pub failed: u64,
}

impl Tally {
    /// Counts one more.
    pub fn count(&mut self, passes: bool) {
        if passes {
            self.passed = self.passed.saturating_add(1);
        } else {
            self.failed = self.failed.saturating_add(1);
        }
    }

    /// Counts all that another one has.
    pub fn add(&mut self, other: Tally) {
        self.passed = self.passed.saturating_add(other.passed);
        self.failed = self.failed.saturating_add(other.failed);
    }
}

// Bytes that are more than these are shown by their first ones and their number.
const SHOWN: usize = 400;

// How bytes are shown: on one line, with escapes.
fn shown(alloc: Global, bytes: &[u8]) -> Result<String, AllocError> {
    let length = bytes.len();
    let front = String::from_utf8_lossy(alloc, &bytes[..length.min(SHOWN)])?;
    if length > SHOWN {
        format!(in alloc; "{front:?} and so on, {length} bytes")
    } else {
        format!(in alloc; "{front:?}")
    }
}

/// Prints what came out otherwise: the text and the line where it is written, what it is of, what was expected, and
/// what came.
pub fn tell(
    rt: &impl Print,
    alloc: Global,
    place: (&str, usize),
    of: &str,
    wanted: &[u8],
    came: &[u8],
) -> io::Result<()> {
    let (name, line) = place;
    let (wanted, came) = (shown(alloc, wanted)?, shown(alloc, came)?);
    println!(rt; "{name}:{line}: {of}")?;
    println!(rt; "    expected {wanted}")?;
    println!(rt; "    came     {came}")
}
