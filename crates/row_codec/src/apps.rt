//! Applications as rows.

ghost use Rattle.row_formats.specs.Gives.{GivesRead};
ghost use Rattle.row_codec.specs.AppRow.{permission, role, quality, tag, descriptor, app_fields, app, IsCountableApp};
ghost use Rattle.row_codec.specs.AppExact.{app_exact};

use crate::bodies::Stored;
use crate::fields::{RowField, read_list, write_list, write_slice};
use crate::values::{put_value, value_of};
use app_manifest::{Manifest, PermissionDef};
use host_base::{AppId, Memory};
use perm_roles::Role;
use powerbox_match::{Descriptor, Quality, Tag};
use row_formats::{ReadError, Reader, RowFault, Writer};
use share_graph::App;
use std::alloc::Global;

const MOST_TAGS: u16 = 32;

const DEPTH: u8 = 16;

// A permission of an application.
impl RowField for PermissionDef {
    fn read_field(alloc: Global, reader: &mut Reader) -> Result<PermissionDef, ReadError> {
        Ok(PermissionDef {
            name: reader.name(alloc)?,
            title: reader.name(alloc)?,
            description: reader.name(alloc)?,
            obsolete: reader.flag()?,
        })
    }

    fn write_field(&self, writer: &mut Writer) -> Result<(), Memory> {
        writer.name(&self.name)?;
        writer.name(&self.title)?;
        writer.name(&self.description)?;
        writer.flag(self.obsolete)
    }

    ghost format = { permission };
}

// A role of an application.
impl RowField for Role {
    fn read_field(alloc: Global, reader: &mut Reader) -> Result<Role, ReadError> {
        Ok(Role {
            title: reader.name(alloc)?,
            verb: reader.name(alloc)?,
            perms: reader.set()?,
            default: reader.flag()?,
            obsolete: reader.flag()?,
        })
    }

    fn write_field(&self, writer: &mut Writer) -> Result<(), Memory> {
        writer.name(&self.title)?;
        writer.name(&self.verb)?;
        writer.set(&self.perms)?;
        writer.flag(self.default)?;
        writer.flag(self.obsolete)
    }

    ghost format = { role };
}

// A quality: which of three.
impl RowField for Quality {
    fn read_field(_alloc: Global, reader: &mut Reader) -> Result<Quality, ReadError> {
        let at = reader.place();
        match reader.u8()? {
            0 => Ok(Quality::Acceptable),
            1 => Ok(Quality::Preferred),
            2 => Ok(Quality::Unacceptable),
            _ => Err(ReadError::Fault(RowFault::BadField(at))),
        }
    }

    fn write_field(&self, writer: &mut Writer) -> Result<(), Memory> {
        match *self {
            Quality::Acceptable => writer.u8(0),
            Quality::Preferred => writer.u8(1),
            Quality::Unacceptable => writer.u8(2),
        }
    }

    ghost format = { quality };
}

// A tag. What was read of its value is within the limits of one.
impl RowField for Tag {
    fn read_field(alloc: Global, reader: &mut Reader) -> Result<Tag, ReadError> {
        let id = reader.u64()?;
        let value = value_of(alloc, reader, DEPTH)?;
        Ok(Tag::new(id, value)?)
    }

    fn write_field(&self, writer: &mut Writer) -> Result<(), Memory> {
        writer.u64(self.id())?;
        put_value(writer, self.value(), DEPTH)
    }

    ghost format = { tag };
}

// A descriptor: its quality, and at most 32 tags.
impl RowField for Descriptor {
    fn read_field(alloc: Global, reader: &mut Reader) -> Result<Descriptor, ReadError> {
        let quality = Quality::read_field(alloc, reader)?;
        let tags = read_list::<Tag>(alloc, reader, MOST_TAGS)?;
        Ok(Descriptor::new(tags.into_vec(), quality))
    }

    fn write_field(&self, writer: &mut Writer) -> Result<(), Memory> {
        self.quality().write_field(writer)?;
        write_slice(writer, self.tags())
    }

    ghost format = { descriptor };
}

// The fields of an application, behind the version.
fn app_fields(alloc: Global, reader: &mut Reader, num: u32) -> Result<App, ReadError>
    ensures { GivesRead (λ x. x) result reader.new ((app_fields num).read reader.old) }
{
    let manifest = Manifest {
        title: reader.name(alloc)?,
        version: reader.u32()?,
        permissions: read_list(alloc, reader, u16::MAX)?,
        roles: read_list(alloc, reader, u16::MAX)?,
        match_requests: read_list(alloc, reader, u16::MAX)?,
    };
    Ok(App {
        num: AppId(num),
        manifest,
    })
}

impl Stored for App {
    fn read_row(alloc: Global, reader: &mut Reader, num: u32) -> Result<App, ReadError> {
        match reader.u8()? {
            1 => app_fields(alloc, reader, num),
            version => Err(ReadError::Fault(RowFault::BadVersion(version))),
        }
    }

    fn write_row(&self, writer: &mut Writer) -> Result<(), Memory> {
        let manifest = &self.manifest;
        writer.u8(1)?;
        writer.name(&manifest.title)?;
        writer.u32(manifest.version)?;
        write_list(writer, &manifest.permissions)?;
        write_list(writer, &manifest.roles)?;
        write_list(writer, &manifest.match_requests)
    }

    ghost format = { app };

    ghost carried = { λ a. a.num.0 };

    ghost is_countable = { IsCountableApp };

    ghost exact = { app_exact };
}
