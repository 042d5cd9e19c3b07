//! Grains, accounts and saved references as rows.

ghost use Rattle.row_formats.specs.Gives.{GivesRead};
ghost use Rattle.row_codec.specs.Rows.{account_fields, account, grain_fields, grain, saved_fields, saved};
ghost use Rattle.row_codec.specs.RowsExact.{account_exact, grain_exact, saved_exact};

use crate::bodies::Stored;
use host_base::{AccountId, AppId, GrainId, GrantId, Memory, SavedId};
use row_formats::{ReadError, Reader, RowFault, Writer};
use share_graph::{Account, Grain, Saved};
use std::alloc::Global;

// The fields of a grain, behind the version.
fn grain_fields(alloc: Global, reader: &mut Reader, num: u32) -> Result<Grain, ReadError>
    ensures { GivesRead (λ x. x) result reader.new ((grain_fields num).read reader.old) }
{
    Ok(Grain {
        app: AppId(reader.u32()?),
        owner: AccountId(reader.u32()?),
        title: reader.name(alloc)?,
        trashed: reader.flag()?,
        num: GrainId(num),
    })
}

impl Stored for Grain {
    fn read_row(alloc: Global, reader: &mut Reader, num: u32) -> Result<Grain, ReadError> {
        match reader.u8()? {
            1 => grain_fields(alloc, reader, num),
            version => Err(ReadError::Fault(RowFault::BadVersion(version))),
        }
    }

    fn write_row(&self, writer: &mut Writer) -> Result<(), Memory> {
        writer.u8(1)?;
        writer.u32(self.app.0)?;
        writer.u32(self.owner.0)?;
        writer.name(&self.title)?;
        writer.flag(self.trashed)
    }

    ghost format = { grain };

    ghost carried = { λ g. g.num.0 };

    ghost exact = { grain_exact };
}

// The fields of an account, behind the version.
fn account_fields(alloc: Global, reader: &mut Reader, num: u32) -> Result<Account, ReadError>
    ensures { GivesRead (λ x. x) result reader.new ((account_fields num).read reader.old) }
{
    Ok(Account {
        handle: reader.name(alloc)?,
        name: reader.name(alloc)?,
        login: reader.digest()?,
        admin: reader.flag()?,
        enabled: reader.flag()?,
        num: AccountId(num),
    })
}

impl Stored for Account {
    fn read_row(alloc: Global, reader: &mut Reader, num: u32) -> Result<Account, ReadError> {
        match reader.u8()? {
            1 => account_fields(alloc, reader, num),
            version => Err(ReadError::Fault(RowFault::BadVersion(version))),
        }
    }

    fn write_row(&self, writer: &mut Writer) -> Result<(), Memory> {
        writer.u8(1)?;
        writer.name(&self.handle)?;
        writer.name(&self.name)?;
        writer.digest(&self.login)?;
        writer.flag(self.admin)?;
        writer.flag(self.enabled)
    }

    ghost format = { account };

    ghost carried = { λ a. a.num.0 };

    ghost exact = { account_exact };
}

// The fields of a saved reference, behind the version.
fn saved_fields(alloc: Global, reader: &mut Reader, num: u32) -> Result<Saved, ReadError>
    ensures { GivesRead (λ x. x) result reader.new ((saved_fields num).read reader.old) }
{
    Ok(Saved {
        holder: GrainId(reader.u32()?),
        grant: GrantId(reader.u32()?),
        label: reader.name(alloc)?,
        digest: reader.digest()?,
        dropped: reader.flag()?,
        num: SavedId(num),
    })
}

impl Stored for Saved {
    fn read_row(alloc: Global, reader: &mut Reader, num: u32) -> Result<Saved, ReadError> {
        match reader.u8()? {
            1 => saved_fields(alloc, reader, num),
            version => Err(ReadError::Fault(RowFault::BadVersion(version))),
        }
    }

    fn write_row(&self, writer: &mut Writer) -> Result<(), Memory> {
        writer.u8(1)?;
        writer.u32(self.holder.0)?;
        writer.u32(self.grant.0)?;
        writer.name(&self.label)?;
        writer.digest(&self.digest)?;
        writer.flag(self.dropped)
    }

    ghost format = { saved };

    ghost carried = { λ s. s.num.0 };

    ghost exact = { saved_exact };
}
