//! Grants as rows.

ghost use Rattle.std.specs.Prelude.{◌≡◌, ◌≤◌, ◌++◌, ◌∷◌, ℕ, length, OnOk};
ghost use Rattle.std.specs.Int.{w32};
ghost use Rattle.row_formats.specs.Gives.{GivesRead};
ghost use Rattle.row_formats.specs.Format.{number};
ghost use Rattle.row_codec.specs.GrantRow.{giver_format, target_format, base_format, assignment, node_format, need_format, token, without_expiry, expiry, with_expiry, grant, IsCountableGrant};
ghost use Rattle.row_codec.specs.GrantExact.{grant_exact};

use crate::bodies::Stored;
use crate::fields::{RowField, read_list, write_list};
use host_base::{AccountId, Digest, GrainId, GrantId, Memory};
use perm_roles::{Assignment, Base};
use row_formats::{ReadError, Reader, RowFault, Writer};
use share_graph::{Giver, Grant, Need, Node, Target};
use std::alloc::Global;

// Writes which of several a choice is, where its one part is the number of a row.
fn put_chosen(writer: &mut Writer, which: u8, num: u32) -> Result<(), Memory>
    ensures written { OnOk result (writer.new ≡ writer.old ++ which ∷ (number w32).write num) }
    ensures fits { OnOk result ((number w32).fits num) }
{
    writer.u8(which)?;
    writer.u32(num)
}

// A giver: which of three, and its parts.
impl RowField for Giver {
    fn read_field(_alloc: Global, reader: &mut Reader) -> Result<Giver, ReadError> {
        let at = reader.place();
        match reader.u8()? {
            1 => Ok(Giver::Account(AccountId(reader.u32()?))),
            2 => Ok(Giver::Grant(GrantId(reader.u32()?))),
            3 => Ok(Giver::Site {
                by: AccountId(reader.u32()?),
                tag: reader.u64()?,
                item: reader.u32()?,
            }),
            _ => Err(ReadError::Fault(RowFault::BadField(at))),
        }
    }

    fn write_field(&self, writer: &mut Writer) -> Result<(), Memory> {
        match *self {
            Giver::Account(account) => put_chosen(writer, 1, account.0),
            Giver::Grant(grant) => put_chosen(writer, 2, grant.0),
            Giver::Site { by, tag, item } => {
                put_chosen(writer, 3, by.0)?;
                writer.u64(tag)?;
                writer.u32(item)
            }
        }
    }

    ghost format = { giver_format };
}

// A target: which of four, and its part.
impl RowField for Target {
    fn read_field(_alloc: Global, reader: &mut Reader) -> Result<Target, ReadError> {
        let at = reader.place();
        match reader.u8()? {
            1 => Ok(Target::Bearer {
                for_sharing: reader.flag()?,
            }),
            2 => Ok(Target::User(AccountId(reader.u32()?))),
            3 => Ok(Target::Claim(GrainId(reader.u32()?))),
            4 => Ok(Target::Grain(GrainId(reader.u32()?))),
            _ => Err(ReadError::Fault(RowFault::BadField(at))),
        }
    }

    fn write_field(&self, writer: &mut Writer) -> Result<(), Memory> {
        match *self {
            Target::Bearer { for_sharing } => {
                writer.u8(1)?;
                writer.flag(for_sharing)
            }
            Target::User(account) => put_chosen(writer, 2, account.0),
            Target::Claim(grain) => put_chosen(writer, 3, grain.0),
            Target::Grain(grain) => put_chosen(writer, 4, grain.0),
        }
    }

    ghost format = { target_format };
}

// A base: which of three, and its part.
impl RowField for Base {
    fn read_field(_alloc: Global, reader: &mut Reader) -> Result<Base, ReadError> {
        let at = reader.place();
        match reader.u8()? {
            0 => Ok(Base::NoRole),
            1 => Ok(Base::AllAccess),
            2 => Ok(Base::Role(reader.u16()?)),
            _ => Err(ReadError::Fault(RowFault::BadField(at))),
        }
    }

    fn write_field(&self, writer: &mut Writer) -> Result<(), Memory> {
        match *self {
            Base::NoRole => writer.u8(0),
            Base::AllAccess => writer.u8(1),
            Base::Role(role) => {
                writer.u8(2)?;
                writer.u16(role)
            }
        }
    }

    ghost format = { base_format };
}

// An assignment: its base, what is added, and what is removed.
impl RowField for Assignment {
    fn read_field(alloc: Global, reader: &mut Reader) -> Result<Assignment, ReadError> {
        Ok(Assignment {
            base: Base::read_field(alloc, reader)?,
            add: reader.set()?,
            remove: reader.set()?,
        })
    }

    fn write_field(&self, writer: &mut Writer) -> Result<(), Memory> {
        self.base.write_field(writer)?;
        writer.set(&self.add)?;
        writer.set(&self.remove)
    }

    ghost format = { assignment };
}

// Who holds something: an account on a grain, or a grant.
impl RowField for Node {
    fn read_field(_alloc: Global, reader: &mut Reader) -> Result<Node, ReadError> {
        let at = reader.place();
        match reader.u8()? {
            1 => {
                let grain = GrainId(reader.u32()?);
                let account = AccountId(reader.u32()?);
                Ok(Node::User(grain, account))
            }
            2 => Ok(Node::Grant(GrantId(reader.u32()?))),
            _ => Err(ReadError::Fault(RowFault::BadField(at))),
        }
    }

    fn write_field(&self, writer: &mut Writer) -> Result<(), Memory> {
        match *self {
            Node::User(grain, account) => {
                put_chosen(writer, 1, grain.0)?;
                writer.u32(account.0)
            }
            Node::Grant(grant) => put_chosen(writer, 2, grant.0),
        }
    }

    ghost format = { node_format };
}

// A need: which of three, and its parts.
impl RowField for Need {
    fn read_field(alloc: Global, reader: &mut Reader) -> Result<Need, ReadError> {
        let at = reader.place();
        match reader.u8()? {
            1 => Ok(Need::TokenValid(GrantId(reader.u32()?))),
            2 => Ok(Need::PermissionsHeld {
                holder: Node::read_field(alloc, reader)?,
                set: reader.set()?,
            }),
            3 => Ok(Need::UserIsAdmin(AccountId(reader.u32()?))),
            _ => Err(ReadError::Fault(RowFault::BadField(at))),
        }
    }

    fn write_field(&self, writer: &mut Writer) -> Result<(), Memory> {
        match *self {
            Need::TokenValid(grant) => put_chosen(writer, 1, grant.0),
            Need::PermissionsHeld { holder, set } => {
                writer.u8(2)?;
                holder.write_field(writer)?;
                writer.set(&set)
            }
            Need::UserIsAdmin(account) => put_chosen(writer, 3, account.0),
        }
    }

    ghost format = { need_format };
}

// The digest of a token, where there is one.
impl RowField for Option<Digest> {
    fn read_field(_alloc: Global, reader: &mut Reader) -> Result<Option<Digest>, ReadError> {
        let at = reader.place();
        match reader.u8()? {
            0 => Ok(None),
            1 => Ok(Some(reader.digest()?)),
            _ => Err(ReadError::Fault(RowFault::BadField(at))),
        }
    }

    fn write_field(&self, writer: &mut Writer) -> Result<(), Memory> {
        match *self {
            None => writer.u8(0),
            Some(digest) => {
                writer.u8(1)?;
                writer.digest(&digest)
            }
        }
    }

    ghost format = { token };
}

// The fields of a grant without an expiry, behind the version.
fn without_expiry(alloc: Global, reader: &mut Reader, num: u32) -> Result<Grant, ReadError>
    ensures { GivesRead (λ x. x) result reader.new ((without_expiry num).read reader.old) }
{
    Ok(Grant {
        grain: GrainId(reader.u32()?),
        giver: Giver::read_field(alloc, reader)?,
        target: Target::read_field(alloc, reader)?,
        assignment: Assignment::read_field(alloc, reader)?,
        needs: read_list(alloc, reader, u16::MAX)?,
        digest: Option::<Digest>::read_field(alloc, reader)?,
        revoked: reader.flag()?,
        num: GrantId(num),
        expires: None,
    })
}

// An expiry, which is above 0.
fn expiry(reader: &mut Reader) -> Result<u64, ReadError>
    ensures { GivesRead (λ x. x) result reader.new (expiry.read reader.old) }
{
    let at = reader.place();
    match reader.u64()? {
        0 => Err(ReadError::Fault(RowFault::BadField(at))),
        end => Ok(end),
    }
}

// The fields of a grant with an expiry, behind the version.
fn with_expiry(alloc: Global, reader: &mut Reader, num: u32) -> Result<Grant, ReadError>
    ensures { GivesRead (λ x. x) result reader.new ((with_expiry num).read reader.old) }
{
    let mut grant = without_expiry(alloc, reader, num)?;
    let end = expiry(reader)?;
    grant.expires = Some(end);
    Ok(grant)
}

// Writes a version, and the fields of a grant but for its expiry.
fn put_fields(writer: &mut Writer, version: u8, grant: &Grant) -> Result<(), Memory>
    ensures written { OnOk result ((num : ℕ)
        → writer.new ≡ writer.old ++ version ∷ (without_expiry num).write grant.now) }
    ensures fits { OnOk result (length grant.now.needs ≤ 65535
        → (without_expiry grant.now.num.0).fits (record grant.now { expires = None })) }
{
    writer.u8(version)?;
    writer.u32(grant.grain.0)?;
    grant.giver.write_field(writer)?;
    grant.target.write_field(writer)?;
    grant.assignment.write_field(writer)?;
    write_list(writer, &grant.needs)?;
    grant.digest.write_field(writer)?;
    writer.flag(grant.revoked)
}

impl Stored for Grant {
    fn read_row(alloc: Global, reader: &mut Reader, num: u32) -> Result<Grant, ReadError> {
        match reader.u8()? {
            1 => without_expiry(alloc, reader, num),
            2 => with_expiry(alloc, reader, num),
            version => Err(ReadError::Fault(RowFault::BadVersion(version))),
        }
    }

    fn write_row(&self, writer: &mut Writer) -> Result<(), Memory> {
        match self.expires {
            None => put_fields(writer, 1, self),
            Some(end) => {
                put_fields(writer, 2, self)?;
                writer.u64(end)
            }
        }
    }

    ghost format = { grant };

    ghost carried = { λ g. g.num.0 };

    ghost is_countable = { IsCountableGrant };

    ghost exact = { grant_exact };
}
