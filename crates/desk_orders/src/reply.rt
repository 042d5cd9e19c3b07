//! What is answered to orders.

use host_base::{AccountId, Bytes, Memory};
use listings::Page;
use plain_data::List;
use report_desk::{Reasons, ReportLines};
use saved_refs::Listed;
use share_graph::{Made, Refusal};
use thiserror::Error;

/// What is answered to a question, which changes nothing.
#[derive(Drop)]
pub enum Listing {
    /// What may be chosen: grains, preferred ones first, then by number; then what the sites offer, preferred first,
    /// then by tag and item.
    Options(List<Listed>),
    /// Who has access to a grain.
    Access(ReportLines),
    /// What a revocation would take.
    Losses(ReportLines),
    /// Why an account has access to a grain.
    Why(Reasons),
    /// Which members of a collection are owed a share, by number.
    Owed(List<AccountId>),
    /// A page of a list.
    Page(Page),
}

/// The answer to an order that was carried out or refused.
#[derive(Drop)]
pub enum Reply {
    /// What was made or is there already, and the text of the secret that was drawn, where the reply shows it.
    Made(Made, Option<Bytes>),
    /// What a question is answered.
    Listed(Listing),
    /// Why nothing was done.
    Refused(Refusal),
}

/// Why an order that is lawful wasn't carried out. All is then as before.
#[derive(Clone, Copy, Debug, PartialEq, Eq, Error)]
pub enum OrderFault {
    #[error("the row couldn't be stored")]
    Store,
    #[error("no secret could be drawn")]
    Secrets,
    #[error("the run couldn't be started or stopped")]
    Start,
    #[error("out of memory")]
    Memory,
}

impl From<Memory> for OrderFault {
    ghost use Rattle.std.specs.Prelude.{◌≡◌};
    ghost use Rattle.desk_orders.specs.declared.reply.OrderFault.{OrderFault};

    ghost from_gives = { λ _ fault. fault ≡ OrderFault.Memory };

    fn from(_: Memory) -> OrderFault {
        OrderFault::Memory
    }
}
