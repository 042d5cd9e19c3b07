//! The bodies of stored rows, each read and written whole.

ghost use Rattle.std.specs.Prelude.{◌≡◌, ◌<◌, ◌++◌, ◌∷◌, ℕ, List, length, take, Ok, Err, IfOk, OnOk};
ghost use Rattle.row_formats.specs.Place.{whole};
ghost use Rattle.row_formats.specs.Gives.{GivesRead, GivesWhole};
ghost use Rattle.row_formats.specs.Exact.{Spells};
ghost use Rattle.row_formats.specs.declared.fault.RowFault.TheVariants.{Short, Spare};

use host_base::{Bytes, Memory};
use row_formats::{ReadError, Reader, Writer};
use std::alloc::Global;

/// A type whose values are stored as rows.
pub trait Stored: Sized {
    ghost use Rattle.std.specs.Prelude.{ℕ};
    ghost use Rattle.row_formats.specs.Format.{Format};
    ghost use Rattle.row_formats.specs.Exact.{IsExact};

    /// The format of the row of a number: a version, and the fields of that version.
    ghost format: { ℕ → Format Self };

    /// The number that a value carries.
    ghost carried: { Self → ℕ };

    /// Two bytes can count each list of a value, and an expiry that it has is above 0.
    ghost is_countable: { Self → Type 0 } = { λ _. Unit {0} };

    /// Reads the row of a number.
    fn read_row(alloc: Global, reader: &mut Reader, num: u32) -> Result<Self, ReadError>
        ensures { GivesRead (λ x. x) result reader.new ((format num).read reader.old) };

    /// Writes a row. What has the type of a row, and is countable, fits the row of its number.
    fn write_row(&self, writer: &mut Writer) -> Result<(), Memory>
        ensures written { OnOk result ((num : ℕ) → writer.new ≡ writer.old ++ (format num).write self.now) }
        ensures fits { OnOk result (is_countable self.now → (format (carried self.now)).fits self.now) };

    /// The format has one spelling for each value.
    ghost exact: { (num : ℕ) → IsExact (format num) };
}

// A row, and the end.
fn read_whole<T: Stored + Drop>(alloc: Global, num: u32, body: &[u8]) -> Result<T, ReadError>
    ensures { GivesWhole (λ x. x) result (whole (T.format num).read body.now) }
{
    let mut reader = Reader::new(body);
    let row = T::read_row(alloc, &mut reader, num)?;
    reader.end()?;
    Ok(row)
}

/// Reads the row of a number from its body.
///
/// # Errors
/// Want of memory, and the first fault from the left.
pub fn read_body<T: Stored + Drop>(alloc: Global, num: u32, body: &[u8]) -> Result<T, ReadError>
    // What is read is spelled by the body, each byte of it.
    ensures found { IfOk result (λ x. Spells (T.format num) x body.now) }

    // What the body spells is read, unless memory runs out.
    ensures only { (x : T) → Spells (T.format num) x body.now → GivesWhole (λ x. x) result (Ok x) }

    // A body that is cut off is short at its end.
    ensures short { (x : T) (k : ℕ) → (T.format num).fits x → k < length ((T.format num).write x)
        → body.now ≡ take k ((T.format num).write x)
        → GivesWhole (λ x. x) result (Err (Short k)) }

    // What stands behind a row is spare from its first byte on.
    ensures spare { (x : T) (byte : ℕ) (more : List ℕ) → (T.format num).fits x
        → body.now ≡ (T.format num).write x ++ byte ∷ more
        → GivesWhole (λ x. x) result (Err (Spare (length ((T.format num).write x)))) }

    // Which value or which fault it is.
    ensures exact { GivesWhole (λ x. x) result (whole (T.format num).read body.now) }
{
    read_whole(alloc, num, body)
}

/// Writes the body of a row. It fits the row of its number, where it is countable.
pub fn write_body<T: Stored>(alloc: Global, row: &T) -> Result<Bytes, Memory>
    ensures written { IfOk result (λ body. (num : ℕ) → body ≡ (T.format num).write row.now) }
    ensures fits { OnOk result (T.is_countable row.now → (T.format (T.carried row.now)).fits row.now) }
{
    let mut writer = Writer::new(alloc);
    row.write_row(&mut writer)?;
    Ok(writer.into_bytes())
}
