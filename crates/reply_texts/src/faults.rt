//! The answers to faults, which aren't refusals.

ghost use Rattle.std.specs.Prelude.{◌≡◌, IfOk};
ghost use Rattle.http.specs.StatusCode.{IsStatusCode};
ghost use Rattle.reply_texts.specs.Numbers.{list_of};
ghost use Rattle.reply_texts.specs.Faults.{fault_name, fault_numbers, fault_status, fault_text};

use crate::own::{Numbers, numbered_reply};
use host_base::{Bytes, Memory};
use std::alloc::Global;
use thiserror::Error;

/// What keeps a command from being carried out, or an item of the site's own from being given, though nothing is refused. Want of memory
/// has an answer of its own, which takes none (`front_http::memory_reply`).
#[derive(Clone, Copy, Debug, PartialEq, Eq, Error)]
pub enum OwnFault {
    /// The rows could not be kept.
    #[error("the rows could not be kept")]
    StoreFailed,
    /// No secret could be drawn.
    #[error("no secret could be drawn")]
    SecretsFailed,
    /// The grain could not be started.
    #[error("the grain could not be started")]
    StartFailed,
    /// 0: the body is no JSON object. Else the field of that number isn't as it should be.
    #[error("field {0} of the body isn't as it should be")]
    BadBody(u8),
    /// No driver of the site's own has this tag.
    #[error("no driver has the tag {0}")]
    NoDriver(u64),
    /// The driver of this tag doesn't offer this item.
    #[error("the driver of the tag {0} doesn't offer the item {1}")]
    NotOffered(u64, u32),
}

fn name_of(fault: OwnFault) -> &'static str
    ensures { result.now ≡ fault_name fault }
{
    match fault {
        OwnFault::StoreFailed => "StoreFailed",
        OwnFault::SecretsFailed => "SecretsFailed",
        OwnFault::StartFailed => "StartFailed",
        OwnFault::BadBody(_) => "BadBody",
        OwnFault::NoDriver(_) => "NoDriver",
        OwnFault::NotOffered(_, _) => "NotOffered",
    }
}

fn numbers_of(fault: OwnFault) -> Numbers
    ensures { list_of result ≡ fault_numbers fault }
{
    match fault {
        OwnFault::StoreFailed | OwnFault::SecretsFailed | OwnFault::StartFailed => Numbers::Zero,
        OwnFault::BadBody(field) => Numbers::One(u64::from(field)),
        OwnFault::NoDriver(tag) => Numbers::One(tag),
        OwnFault::NotOffered(tag, item) => Numbers::Two(tag, u64::from(item)),
    }
}

fn status_of(fault: OwnFault) -> u16
    ensures value { result ≡ fault_status fault }
    ensures valid { IsStatusCode result }
{
    match fault {
        OwnFault::StoreFailed | OwnFault::SecretsFailed => 503,
        OwnFault::StartFailed => 502,
        OwnFault::BadBody(_) => 422,
        OwnFault::NoDriver(_) | OwnFault::NotOffered(_, _) => 404,
    }
}

/// The answer to a fault.
pub fn fault_reply(alloc: Global, fault: OwnFault, head_only: bool) -> Result<Bytes, Memory>
    ensures { IfOk result (λ reply. reply ≡ fault_text fault head_only) }
{
    numbered_reply(
        alloc,
        status_of(fault),
        name_of(fault),
        numbers_of(fault),
        head_only,
    )
}
