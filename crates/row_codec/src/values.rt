//! The value of a tag in a row.

ghost use Rattle.std.specs.Prelude.{◌≡◌, ◌++◌, ◌≤◌, true, None, map, option_map, OnOk};
ghost use Rattle.powerbox_match.specs.Value.{tag_data, field_data, fields_data, items_data, nesting, fields_nesting, items_nesting, is_tidy, fields as named, items as listed};
ghost use Rattle.row_formats.specs.Gives.{GivesRead};
ghost use Rattle.row_formats.specs.Format.{integer, chain, list, last_of, text_above};
ghost use Rattle.row_codec.specs.ValueFormat.{value, entry};

use host_base::Memory;
use plain_data::Name;
use powerbox_match::TagValue;
use row_formats::{ReadError, Reader, RowFault, Writer};
use std::alloc::Global;

const MOST_ENTRIES: u16 = 1000;

// A name above that of the last field.
fn name_above(
    alloc: Global,
    reader: &mut Reader,
    before: &[(Name, TagValue)],
) -> Result<Name, ReadError>
    ensures { GivesRead (λ x. x) result reader.new
        ((text_above (option_map (λ f. f.0) (last_of (map field_data before.now)))).read
        reader.old) }
{
    match before.last() {
        None => reader.name_above(alloc, None),
        Some(field) => reader.name_above(alloc, Some(&field.0)),
    }
}

/// Reads a value, in which values may stand inside one another up to a depth.
#[cycle(value)]
#[tactic(auto, unfolding(crate::specs::ValueFormat::value))]
pub(crate) fn value_of(alloc: Global, reader: &mut Reader, depth: u8) -> Result<TagValue, ReadError>
    ensures { GivesRead tag_data result reader.new ((value depth).read reader.old) }
{
    let at = reader.place();
    let kind = reader.u8()?;
    if depth == 0 {
        return Err(ReadError::Fault(RowFault::BadField(at)));
    }
    match kind {
        0 => Ok(TagValue::Any),
        1 => Ok(TagValue::Number(reader.i128()?)),
        2 => Ok(TagValue::Text(reader.name(alloc)?)),
        3 => Ok(TagValue::Fields(fields_of(alloc, reader, depth - 1)?)),
        4 => Ok(TagValue::Items(items_of(alloc, reader, depth - 1)?)),
        _ => Err(ReadError::Fault(RowFault::BadField(at))),
    }
}

// A field: its name, above that of the last one, and its value.
#[cycle(value)]
fn field_of(
    alloc: Global,
    reader: &mut Reader,
    before: &[(Name, TagValue)],
    depth: u8,
) -> Result<(Name, TagValue), ReadError>
    ensures { GivesRead field_data result reader.new
        ((entry (value depth) (last_of (map field_data before.now))).read reader.old) }
{
    let name = name_above(alloc, reader, before)?;
    let value = value_of(alloc, reader, depth)?;
    Ok((name, value))
}

// Named fields, as many as their count says.
#[cycle(value)]
fn fields_of(
    alloc: Global,
    reader: &mut Reader,
    depth: u8,
) -> Result<Vec<(Name, TagValue)>, ReadError>
    ensures { GivesRead (λ fs. map field_data fs.items) result reader.new
        ((chain 1000 (entry (value depth))).read reader.old) }
{
    let count = reader.count(MOST_ENTRIES)?;
    let mut fields = Vec::new(alloc);
    for _ in 0..count {
        let field = field_of(alloc, reader, &fields, depth)?;
        fields.push(field)?;
    }
    Ok(fields)
}

// Items, as many as their count says.
#[cycle(value)]
fn items_of(alloc: Global, reader: &mut Reader, depth: u8) -> Result<Vec<TagValue>, ReadError>
    ensures { GivesRead (λ vs. map tag_data vs.items) result reader.new
        ((list 1000 (value depth)).read reader.old) }
{
    let count = reader.count(MOST_ENTRIES)?;
    let mut items = Vec::new(alloc);
    for _ in 0..count {
        let item = value_of(alloc, reader, depth)?;
        items.push(item)?;
    }
    Ok(items)
}

// A number that a value holds.
fn put_number(writer: &mut Writer, number: &i128) -> Result<(), Memory>
    ensures written { OnOk result (writer.new ≡ writer.old ++ integer.write number.now) }
    ensures fits { integer.fits number.now }
{
    writer.i128(*number)
}

/// Writes a value that nests no deeper than this.
#[cycle(put_value)]
pub(crate) fn put_value(writer: &mut Writer, written: &TagValue, depth: u8) -> Result<(), Memory>
    requires { nesting (tag_data written.now) ≤ depth }
    ensures written { OnOk result (writer.new ≡ writer.old ++ (value depth).write (tag_data written.now)) }
    ensures fits { OnOk result (is_tidy (tag_data written.now) ≡ true
        → (value depth).fits (tag_data written.now)) }
{
    match written {
        TagValue::Any => writer.u8(0)?,
        TagValue::Number(number) => {
            writer.u8(1)?;
            put_number(writer, number)?;
        }
        TagValue::Text(text) => {
            writer.u8(2)?;
            writer.name(text)?;
        }
        TagValue::Fields(fields) => {
            writer.u8(3)?;
            put_fields(writer, fields, depth - 1)?;
        }
        TagValue::Items(items) => {
            writer.u8(4)?;
            put_items(writer, items, depth - 1)?;
        }
    }
    Ok(())
}

// Writes a field.
#[cycle(put_value)]
fn put_field(writer: &mut Writer, field: &(Name, TagValue), depth: u8) -> Result<(), Memory>
    requires { nesting (tag_data field.now.1) ≤ depth }
    ensures written { OnOk result (writer.new ≡ writer.old ++ (entry (value depth) None).write
        (field_data field.now)) }
    ensures fits { OnOk result (is_tidy (tag_data field.now.1) ≡ true
        → (entry (value depth) None).fits (field_data field.now)) }
{
    writer.name(&field.0)?;
    put_value(writer, &field.1, depth)?;
    Ok(())
}

// Writes named fields, none of which nests deeper than this.
#[cycle(put_value)]
fn put_fields(writer: &mut Writer, fields: &[(Name, TagValue)], depth: u8) -> Result<(), Memory>
    requires { fields_nesting (fields_data fields.now) ≤ depth }
    ensures written { OnOk result (writer.new ≡ writer.old ++ (chain 1000 (entry (value depth))).write
        (map field_data fields.now)) }
    ensures fits { OnOk result (is_tidy (named (fields_data fields.now)) ≡ true
        → (chain 1000 (entry (value depth))).fits (map field_data fields.now)) }
{
    writer.count(fields.len())?;
    for field in fields {
        put_field(writer, field, depth)?;
    }
    Ok(())
}

// Writes items, none of which nests deeper than this.
#[cycle(put_value)]
fn put_items(writer: &mut Writer, items: &[TagValue], depth: u8) -> Result<(), Memory>
    requires { items_nesting (items_data items.now) ≤ depth }
    ensures written { OnOk result (writer.new ≡ writer.old ++ (list 1000 (value depth)).write
        (map tag_data items.now)) }
    ensures fits { OnOk result (is_tidy (listed (items_data items.now)) ≡ true
        → (list 1000 (value depth)).fits (map tag_data items.now)) }
{
    writer.count(items.len())?;
    for item in items {
        put_value(writer, item, depth)?;
    }
    Ok(())
}
