//! Fields and lists of rows: one loop that reads, and one that writes, for every type of item.

ghost use Rattle.std.specs.Prelude.{◌≡◌, ◌++◌, ◌≤◌, ◌<◌, ℕ, length, OnOk};
ghost use Rattle.row_formats.specs.Gives.{GivesRead};
ghost use Rattle.row_formats.specs.Format.{list};

use host_base::Memory;
use plain_data::List;
use row_formats::{ReadError, Reader, Writer};
use std::alloc::Global;

/// A type whose values are fields of rows.
pub trait RowField: Sized {
    ghost use Rattle.row_formats.specs.Format.{Format};

    /// The format of a field.
    ghost format: { Format Self };

    /// Reads a field.
    fn read_field(alloc: Global, reader: &mut Reader) -> Result<Self, ReadError>
        ensures { GivesRead (λ x. x) result reader.new (format.read reader.old) };

    /// Writes a field. What has a field's type fits its format.
    fn write_field(&self, writer: &mut Writer) -> Result<(), Memory>
        ensures written { OnOk result (writer.new ≡ writer.old ++ format.write self.now) }
        ensures fits { OnOk result (format.fits self.now) };
}

/// Reads a list: a count of at most a limit, and so many items. No memory is taken for an item before it was read.
///
/// # Errors
/// `BadField` at the count, where it is above the limit, and the first fault of an item.
pub fn read_list<T: RowField + Drop>(
    alloc: Global,
    reader: &mut Reader,
    limit: u16,
) -> Result<List<T>, ReadError>
    ensures { GivesRead (λ items. items) result reader.new ((list limit T.format).read reader.old) }
{
    let count = reader.count(limit)?;
    let mut items = List::empty(alloc);
    for _ in 0..count {
        let item = T::read_field(alloc, reader)?;
        items.push(item)?;
    }
    Ok(items)
}

/// Writes a list: its count, and the items. Any limit on a list is written alike. Of a list above every limit the lowest sixteen
/// bits of its length stand as the count.
pub fn write_list<T: RowField>(writer: &mut Writer, whole: &List<T>) -> Result<(), Memory>
    ensures written { OnOk result ((limit : ℕ)
        → writer.new ≡ writer.old ++ (list limit T.format).write whole.now) }
    ensures fits { OnOk result ((limit : ℕ) → length whole.now ≤ limit → limit < 65536
        → (list limit T.format).fits whole.now) }
{
    write_slice(writer, whole.as_slice())
}

/// Writes a slice as a list, in the same way.
pub fn write_slice<T: RowField>(writer: &mut Writer, items: &[T]) -> Result<(), Memory>
    ensures written { OnOk result ((limit : ℕ)
        → writer.new ≡ writer.old ++ (list limit T.format).write items.now) }
    ensures fits { OnOk result ((limit : ℕ) → length items.now ≤ limit → limit < 65536
        → (list limit T.format).fits items.now) }
{
    writer.count(items.len())?;
    for item in items {
        item.write_field(writer)?;
    }
    Ok(())
}
