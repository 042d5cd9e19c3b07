ghost use Rattle.std.specs.Prelude.{◌≡◌, ◌++◌, ◌∷◌, [], OnOk};
ghost use Rattle.std.specs.Int.{w8, w16, w32, w64};
ghost use Rattle.row_formats.specs.Format.{number, number_bytes, text, flag, integer, digest};
ghost use Rattle.row_formats.specs.Sets.{set};

use host_base::{Bytes, Digest, Memory};
use perm_roles::PermSet;
use plain_data::Name;
use std::alloc::Global;
use std::marker::Model;

/// Writes the body of a row, one field behind the other. Each method fails only for want of memory, and then the writer is of no
/// further use. What has a field's type fits its format.
#[derive(Drop)]
pub struct Writer {
    bytes: Bytes,
}

impl Model for Writer {
    ghost use Rattle.std.specs.Prelude.{List, ℕ};

    ghost Value = { List ℕ };

    ghost view = { λ w. w.bytes };
}

// A number of either sign, big end first.
fn put_i128(bytes: &mut Bytes, n: i128) -> Result<(), Memory>
    ensures written { OnOk result (bytes.new ≡ bytes.old ++ integer.write n) }
    ensures fits { integer.fits n }
{
    bytes.put(&n.to_be_bytes())?;
    Ok(())
}

// The lowest sixteen bits of a number, big end first.
fn put_count(bytes: &mut Bytes, length: usize) -> Result<(), Memory>
    ensures { OnOk result (bytes.new ≡ bytes.old ++ number_bytes w16 length) }
{
    let count = (length % 65_536) as u16;
    bytes.put(&count.to_be_bytes())?;
    Ok(())
}

impl Writer {
    /// A writer that wrote nothing yet.
    pub fn new(alloc: Global) -> Self
        ensures { result ≡ [] }
    {
        Writer {
            bytes: Bytes::empty(alloc),
        }
    }

    /// What was written.
    pub fn into_bytes(self) -> Bytes
        ensures { result ≡ self }
    {
        self.bytes
    }

    /// A number of one byte.
    #[tactic(auto, unfolding(crate::specs::Format::number_bytes))]
    pub fn u8(&mut self, n: u8) -> Result<(), Memory>
        ensures { OnOk result (self.new ≡ self.old ++ n ∷ []) }
    {
        self.bytes.put(&[n])
    }

    /// A number of two bytes, big end first.
    #[tactic(auto, unfolding(crate::specs::Format::number_bytes))]
    pub fn u16(&mut self, n: u16) -> Result<(), Memory>
        ensures written { OnOk result (self.new ≡ self.old ++ number_bytes w16 n) }
        ensures fits { (number w16).fits n }
    {
        self.bytes.put(&n.to_be_bytes())
    }

    /// A number of four bytes, big end first.
    #[tactic(auto, unfolding(crate::specs::Format::number_bytes))]
    pub fn u32(&mut self, n: u32) -> Result<(), Memory>
        ensures written { OnOk result (self.new ≡ self.old ++ number_bytes w32 n) }
        ensures fits { (number w32).fits n }
    {
        self.bytes.put(&n.to_be_bytes())
    }

    /// A number of eight bytes, big end first.
    #[tactic(auto, unfolding(crate::specs::Format::number_bytes))]
    pub fn u64(&mut self, n: u64) -> Result<(), Memory>
        ensures written { OnOk result (self.new ≡ self.old ++ number_bytes w64 n) }
        ensures fits { (number w64).fits n }
    {
        self.bytes.put(&n.to_be_bytes())
    }

    /// A number of either sign: sixteen bytes, big end first, two's complement.
    pub fn i128(&mut self, n: i128) -> Result<(), Memory>
        ensures written { OnOk result (self.new ≡ self.old ++ integer.write n) }
        ensures fits { integer.fits n }
    {
        put_i128(&mut self.bytes, n)
    }

    /// A digest of 32 bytes.
    pub fn digest(&mut self, secret: &Digest) -> Result<(), Memory>
        ensures written { OnOk result (self.new ≡ self.old ++ digest.write secret.now) }
        ensures fits { digest.fits secret.now }
    {
        self.bytes.put(&secret.0)
    }

    /// A byte that is 0 or 1.
    pub fn flag(&mut self, is_on: bool) -> Result<(), Memory>
        ensures written { OnOk result (self.new ≡ self.old ++ flag.write is_on) }
        ensures fits { flag.fits is_on }
    {
        match is_on {
            false => self.u8(0),
            true => self.u8(1),
        }
    }

    /// A set of positions: a number of eight bytes.
    pub fn set(&mut self, positions: &PermSet) -> Result<(), Memory>
        ensures written { OnOk result (self.new ≡ self.old ++ set.write positions.now) }
        ensures fits { set.fits positions.now }
    {
        self.u64(positions.bits())
    }

    /// The count of a list, in two bytes: the lowest sixteen bits of the list's length.
    pub fn count(&mut self, length: usize) -> Result<(), Memory>
        ensures { OnOk result (self.new ≡ self.old ++ number_bytes w16 length) }
    {
        put_count(&mut self.bytes, length)
    }

    /// A text: its length in two bytes, and its bytes.
    pub fn name(&mut self, name: &Name) -> Result<(), Memory>
        ensures written { OnOk result (self.new ≡ self.old ++ text.write name.now) }
        ensures fits { text.fits name.now }
    {
        let text = name.as_str();
        self.u16(text.len() as u16)?;
        self.bytes.put(text.as_bytes())
    }
}
