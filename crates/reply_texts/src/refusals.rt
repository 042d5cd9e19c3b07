//! The answers to commands that are refused.

ghost use Rattle.std.specs.Prelude.{◌≡◌, [], ◌∷◌, IfOk};
ghost use Rattle.http.specs.StatusCode.{IsStatusCode};
ghost use Rattle.share_graph.specs.Kinds.{kind_number};
ghost use Rattle.reply_texts.specs.Numbers.{list_of};
ghost use Rattle.reply_texts.specs.Refusals as refusals;
ghost use Rattle.reply_texts.specs.Refusals.{command_name, command_numbers, command_status, command_text};

use crate::denials;
use crate::own::{Numbers, numbered_body, numbered_reply};
use host_base::{Bytes, Memory};
use share_graph::{Kind, Refusal};
use std::alloc::Global;

fn name_of(refusal: &Refusal) -> &'static str
    ensures { result.now ≡ command_name refusal.now }
{
    match refusal {
        Refusal::Denied(denial) => denials::name_of(denial),
        Refusal::NotAdmin => "NotAdmin",
        Refusal::NotOwner(_) => "NotOwner",
        Refusal::NotGiver(_) => "NotGiver",
        Refusal::Unknown(_, _) => "Unknown",
        Refusal::BadRole(_) => "BadRole",
        Refusal::ObsoleteRole(_) => "ObsoleteRole",
        Refusal::LongSet => "LongSet",
        Refusal::BadParent(_) => "BadParent",
        Refusal::SelfShare => "SelfShare",
        Refusal::HandleTaken(_) => "HandleTaken",
        Refusal::LastAdmin => "LastAdmin",
        Refusal::Manifest(_) => "Manifest",
        Refusal::AlreadyClaimed(_) => "AlreadyClaimed",
        Refusal::NoSuchOffer => "NoSuchOffer",
        Refusal::NoMatch => "NoMatch",
        Refusal::UnknownHandle(_) => "UnknownHandle",
        Refusal::TooMany(_, _) => "TooMany",
        Refusal::TokenClash(_, _) => "TokenClash",
        Refusal::BadNeed(_) => "BadNeed",
        Refusal::PastMoment(_) => "PastMoment",
    }
}

fn of_kind(kind: Kind, number: u64) -> Numbers
    ensures { list_of result ≡ kind_number kind ∷ number ∷ [] }
{
    Numbers::Two(u64::from(kind.number()), number)
}

fn numbers_of(refusal: &Refusal) -> Numbers
    ensures { list_of result ≡ command_numbers refusal.now }
{
    match refusal {
        Refusal::Denied(denial) => denials::numbers_of(denial),
        Refusal::NotOwner(grain) => Numbers::One(u64::from(grain.0)),
        Refusal::HandleTaken(account) => Numbers::One(u64::from(account.0)),
        Refusal::NotGiver(grant) | Refusal::BadParent(grant) | Refusal::AlreadyClaimed(grant) => {
            Numbers::One(u64::from(grant.0))
        }
        Refusal::BadRole(number) | Refusal::ObsoleteRole(number) | Refusal::BadNeed(number) => {
            Numbers::One(u64::from(*number))
        }
        Refusal::UnknownHandle(number) => Numbers::One(u64::from(*number)),
        Refusal::PastMoment(moment) => Numbers::One(*moment),
        Refusal::Unknown(kind, number) => of_kind(*kind, u64::from(*number)),
        Refusal::TooMany(kind, limit) => of_kind(*kind, u64::from(*limit)),
        Refusal::TokenClash(kind, number) => of_kind(*kind, *number),
        Refusal::Manifest(fault) => {
            Numbers::Two(u64::from(fault.number()), fault.argument() as u64)
        }
        Refusal::NotAdmin
        | Refusal::LongSet
        | Refusal::SelfShare
        | Refusal::LastAdmin
        | Refusal::NoSuchOffer
        | Refusal::NoMatch => Numbers::Zero,
    }
}

fn status_of(refusal: &Refusal) -> u16
    ensures value { result ≡ command_status refusal.now }
    ensures valid { IsStatusCode result }
{
    match refusal {
        Refusal::Denied(denial) => denials::status_of(denial),
        Refusal::NotAdmin | Refusal::NotOwner(_) | Refusal::NotGiver(_) => 403,
        Refusal::Unknown(_, _) | Refusal::UnknownHandle(_) => 404,
        Refusal::TooMany(_, _) => 507,
        _ => 409,
    }
}

/// The body of the answer to a command that is refused.
pub fn command_body(alloc: Global, refusal: &Refusal) -> Result<Bytes, Memory>
    ensures { IfOk result (λ body. body ≡ refusals.command_body refusal.now) }
{
    numbered_body(alloc, name_of(refusal), numbers_of(refusal))
}

/// The answer to a command that is refused.
pub fn command_reply(alloc: Global, refusal: &Refusal, head_only: bool) -> Result<Bytes, Memory>
    ensures { IfOk result (λ reply. reply ≡ command_text refusal.now head_only) }
{
    numbered_reply(
        alloc,
        status_of(refusal),
        name_of(refusal),
        numbers_of(refusal),
        head_only,
    )
}
