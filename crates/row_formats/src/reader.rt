ghost use Rattle.std.specs.Prelude.{◌≡◌, IfOk, length, option_map};
ghost use Rattle.std.specs.Int.{w8, w16, w32, w64};
ghost use Rattle.row_formats.specs.Place.{start, bytes_at, ended};
ghost use Rattle.row_formats.specs.Gives.{GivesRead, GivesWhole};
ghost use Rattle.row_formats.specs.Format.{number_at, text_at, name_of, flag, count, integer, digest, text_above, is_above};
ghost use Rattle.row_formats.specs.Sets.{set};

use crate::fault::{ReadError, RowFault};
use host_base::Digest;
use perm_roles::PermSet;
use plain_data::Name;
use std::alloc::{AllocError, Global};
use std::marker::Model;

/// Reads the body of a row from the left, one field after the other. After an error a reader is of no further use.
#[derive(Drop)]
pub struct Reader<'a> {
    at: usize,
    rest: &'a [u8],
}

impl<'a> Model for Reader<'a> {
    ghost use Rattle.std.specs.Prelude.{◌+◌, ◌^◌, ◌<◌, length};
    ghost use Rattle.row_formats.specs.Place.{Place};

    ghost Value = { Place };

    ghost view = { λ r. record { at = r.at; rest = r.rest.now } };

    ghost invariant = { λ r. r.at + length r.rest.now < 2 ^ 63 };
}

// The name that bytes are, if they are one.
fn name_from(alloc: Global, bytes: &[u8]) -> Result<Option<Name>, AllocError>
    ensures { IfOk result (λ name. name ≡ name_of bytes.now) }
{
    match Name::from_bytes(alloc, bytes)? {
        Some(name) => {
            let _text = name.as_str();
            Ok(Some(name))
        }
        None => Ok(None),
    }
}

// Whether a name is above the one before it, by their bytes.
fn is_above(last: Option<&Name>, name: &Name) -> bool
    ensures { result ≡ is_above (option_map (λ before. before.now) last.entry) name.now }
{
    match last {
        None => true,
        Some(before) => before.as_str() < name.as_str(),
    }
}

impl<'a> Reader<'a> {
    /// A reader at the first byte of a body.
    pub fn new(body: &'a [u8]) -> Self
        ensures { result ≡ start body.now }
    {
        Reader { at: 0, rest: body }
    }

    /// How many bytes were read.
    pub fn place(&self) -> usize
        ensures { result ≡ self.now.at }
    {
        self.at
    }

    /// The next bytes, of this number.
    ///
    /// # Errors
    /// `Short`, where fewer bytes are left.
    #[tactic(auto, unfolding(crate::specs::Place::bytes_at))]
    pub fn bytes(&mut self, size: usize) -> Result<&'a [u8], ReadError>
        ensures gives { GivesRead (λ x. x.now) result self.new (bytes_at size self.old) }
        ensures size { IfOk result (λ x. length x.now ≡ size) }
    {
        if self.rest.len() < size {
            return Err(ReadError::Fault(RowFault::Short(self.at + self.rest.len())));
        }
        let (front, rest) = self.rest.split_at(size);
        self.rest = rest;
        self.at += size;
        Ok(front)
    }

    /// A number of one byte.
    #[tactic(auto, unfolding(crate::specs::Format::number_at))]
    pub fn u8(&mut self) -> Result<u8, ReadError>
        ensures { GivesRead (λ x. x) result self.new (number_at w8 self.old) }
    {
        let front = self.bytes(1)?;
        Ok(front[0])
    }

    /// A number of two bytes, big end first.
    #[tactic(auto, unfolding(crate::specs::Format::number_at))]
    pub fn u16(&mut self) -> Result<u16, ReadError>
        ensures { GivesRead (λ x. x) result self.new (number_at w16 self.old) }
    {
        let front = self.bytes(2)?;
        Ok(u16::from_be_bytes([front[0], front[1]]))
    }

    /// A number of four bytes, big end first.
    #[tactic(auto, unfolding(crate::specs::Format::number_at))]
    pub fn u32(&mut self) -> Result<u32, ReadError>
        ensures { GivesRead (λ x. x) result self.new (number_at w32 self.old) }
    {
        let front = self.bytes(4)?;
        Ok(u32::from_be_bytes([front[0], front[1], front[2], front[3]]))
    }

    /// A number of eight bytes, big end first.
    #[tactic(auto, unfolding(crate::specs::Format::number_at))]
    pub fn u64(&mut self) -> Result<u64, ReadError>
        ensures { GivesRead (λ x. x) result self.new (number_at w64 self.old) }
    {
        let front = self.bytes(8)?;
        Ok(u64::from_be_bytes([
            front[0], front[1], front[2], front[3], front[4], front[5], front[6], front[7],
        ]))
    }

    /// A number of either sign: sixteen bytes, big end first, two's complement.
    #[tactic(auto, unfolding(crate::specs::Format::number_at))]
    pub fn i128(&mut self) -> Result<i128, ReadError>
        ensures { GivesRead (λ x. x) result self.new (integer.read self.old) }
    {
        let front = self.bytes(16)?;
        let mut bytes = [0; 16];
        bytes.copy_from_slice(front);
        Ok(i128::from_be_bytes(bytes))
    }

    /// A digest of 32 bytes.
    pub fn digest(&mut self) -> Result<Digest, ReadError>
        ensures { GivesRead (λ x. x) result self.new (digest.read self.old) }
    {
        let front = self.bytes(32)?;
        let mut bytes = [0; 32];
        bytes.copy_from_slice(front);
        Ok(Digest(bytes))
    }

    /// A byte that is 0 or 1.
    ///
    /// # Errors
    /// `BadField`, where it is another.
    pub fn flag(&mut self) -> Result<bool, ReadError>
        ensures { GivesRead (λ x. x) result self.new (flag.read self.old) }
    {
        let at = self.at;
        match self.u8()? {
            0 => Ok(false),
            1 => Ok(true),
            _ => Err(ReadError::Fault(RowFault::BadField(at))),
        }
    }

    /// A set of positions: a number of eight bytes.
    pub fn set(&mut self) -> Result<PermSet, ReadError>
        ensures { GivesRead (λ x. x) result self.new (set.read self.old) }
    {
        let word = self.u64()?;
        Ok(PermSet::from_bits(word))
    }

    /// A text: its length in two bytes, and that many bytes.
    ///
    /// # Errors
    /// `BadField` at the length, where the bytes are there and are no name.
    #[tactic(auto, unfolding(crate::specs::Format::text_at))]
    pub fn name(&mut self, alloc: Global) -> Result<Name, ReadError>
        ensures { GivesRead (λ x. x) result self.new (text_at self.old) }
    {
        let at = self.at;
        let size = usize::from(self.u16()?);
        let bytes = self.bytes(size)?;
        match name_from(alloc, bytes)? {
            Some(name) => Ok(name),
            None => Err(ReadError::Fault(RowFault::BadField(at))),
        }
    }

    /// A text that is above the one before it, by their bytes.
    ///
    /// # Errors
    /// `BadField` at its length, where it isn't, too.
    pub fn name_above(&mut self, alloc: Global, last: Option<&Name>) -> Result<Name, ReadError>
        ensures { GivesRead (λ x. x) result self.new
            ((text_above (option_map (λ before. before.now) last.entry)).read self.old) }
    {
        let at = self.at;
        let name = self.name(alloc)?;
        if is_above(last, &name) {
            Ok(name)
        } else {
            Err(ReadError::Fault(RowFault::BadField(at)))
        }
    }

    /// The count of a list, of at most a limit.
    ///
    /// # Errors
    /// `BadField`, where it is above the limit.
    pub fn count(&mut self, limit: u16) -> Result<u16, ReadError>
        ensures { GivesRead (λ x. x) result self.new ((count limit).read self.old) }
    {
        let at = self.at;
        let count = self.u16()?;
        if count > limit {
            return Err(ReadError::Fault(RowFault::BadField(at)));
        }
        Ok(count)
    }

    /// Ends the reading behind the last field.
    ///
    /// # Errors
    /// `Spare`, where bytes are left.
    pub fn end(&self) -> Result<(), ReadError>
        ensures { GivesWhole (λ x. x) result (ended tt self.now) }
    {
        if self.rest.is_empty() {
            Ok(())
        } else {
            Err(ReadError::Fault(RowFault::Spare(self.at)))
        }
    }
}
