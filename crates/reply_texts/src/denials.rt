//! The answers to denials.

ghost use Rattle.std.specs.Prelude.{◌≡◌, IfOk};
ghost use Rattle.http.specs.StatusCode.{IsStatusCode};
ghost use Rattle.reply_texts.specs.Numbers.{list_of};
ghost use Rattle.reply_texts.specs.Texts.{denial_name, denial_numbers, denial_status, denial_text};
ghost use Rattle.reply_texts.specs.Texts as texts;

use crate::own::{Numbers, numbered_body, numbered_reply};
use host_base::{Bytes, Denial, Memory};
use std::alloc::Global;

/// What a denial is called.
pub(crate) fn name_of(denial: &Denial) -> &'static str
    ensures { result.now ≡ denial_name denial.now }
{
    match denial {
        Denial::UnknownKey => "UnknownKey",
        Denial::SessionClosed(_) => "SessionClosed",
        Denial::NotHolder(_) => "NotHolder",
        Denial::Dropped(_) => "Dropped",
        Denial::GrainTrashed(_) => "GrainTrashed",
        Denial::AccountDisabled(_) => "AccountDisabled",
        Denial::Revoked(_) => "Revoked",
        Denial::Unmet(_, _) => "Unmet",
        Denial::SourceLost(_) => "SourceLost",
        Denial::NoShare(_, _) => "NoShare",
        Denial::GrainStopped(_) => "GrainStopped",
        Denial::Expired(_, _) => "Expired",
    }
}

/// The numbers of a denial.
pub(crate) fn numbers_of(denial: &Denial) -> Numbers
    ensures { list_of result ≡ denial_numbers denial.now }
{
    match denial {
        Denial::UnknownKey => Numbers::Zero,
        Denial::SessionClosed(session) => Numbers::One(u64::from(session.0)),
        Denial::NotHolder(grain) => Numbers::One(u64::from(grain.0)),
        Denial::Dropped(saved) => Numbers::One(u64::from(saved.0)),
        Denial::GrainTrashed(grain) => Numbers::One(u64::from(grain.0)),
        Denial::AccountDisabled(account) => Numbers::One(u64::from(account.0)),
        Denial::Revoked(grant) => Numbers::One(u64::from(grant.0)),
        Denial::Unmet(grant, index) => Numbers::Two(u64::from(grant.0), u64::from(*index)),
        Denial::SourceLost(grant) => Numbers::One(u64::from(grant.0)),
        Denial::NoShare(grain, account) => {
            Numbers::Two(u64::from(grain.0), u64::from(account.0))
        }
        Denial::GrainStopped(grain) => Numbers::One(u64::from(grain.0)),
        Denial::Expired(grant, moment) => Numbers::Two(u64::from(grant.0), *moment),
    }
}

/// The status that a denial is answered with.
pub(crate) fn status_of(denial: &Denial) -> u16
    ensures value { result ≡ denial_status denial.now }
    ensures valid { IsStatusCode result }
{
    match denial {
        Denial::UnknownKey => 401,
        Denial::GrainStopped(_) => 409,
        _ => 403,
    }
}

/// The body of the answer to a denial.
pub fn denial_body(alloc: Global, denial: &Denial) -> Result<Bytes, Memory>
    ensures { IfOk result (λ body. body ≡ texts.denial_body denial.now) }
{
    numbered_body(alloc, name_of(denial), numbers_of(denial))
}

/// The answer to a denial.
pub fn denial_reply(alloc: Global, denial: &Denial, head_only: bool) -> Result<Bytes, Memory>
    ensures { IfOk result (λ reply. reply ≡ denial_text denial.now head_only) }
{
    numbered_reply(
        alloc,
        status_of(denial),
        name_of(denial),
        numbers_of(denial),
        head_only,
    )
}
