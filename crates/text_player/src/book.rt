//! The small book, with objects in memory, and what is asked of it.

ghost use Rattle.std.specs.Prelude.{◌≡◌, [], IfOk};

use crate::gate::Gate;
use crate::gated_keeper::GatedKeeper;
use admin_run::{book_keeper, small_desk};
use club_site::{PlainClub, plain_sites};
use desk_orders::{Command, Order};
use grain_supervise::FakeSpawner;
use host_base::{AccountId, Digest, Fails, GrainId, Key, SeqSecrets, digest_of};
use hub_core::{Held, Holding, Locked};
use perm_roles::Assignment;
use plain_data::List;
use share_graph::Caller;
use std::alloc::Global;
use std::sync::Arc;
use test_words::Fault;

const ADA_LOGIN: &str = "AQEBAQEBAQEBAQEBAQEBAQEBAQEBAQEBAQEBAQEBAQE";

const BEN_KEY: &str = "44444444444444444444444444444444";

const BEN: AccountId = AccountId(3);

const VOTE: GrainId = GrainId(2);

/// Objects in memory.
pub struct InMemory;

impl Holding for InMemory {
    type Keeper = GatedKeeper;

    type Secrets = SeqSecrets;

    type Spawner = FakeSpawner;
}

/// The small book, with objects in memory.
pub type SmallBook = Locked<InMemory, PlainClub>;

/// The small book, whose keeper stays in `commit` until a gate opens, where there is one.
pub fn book_of(alloc: Global, gate: Option<Arc<Gate, Global>>) -> Result<SmallBook, Fault>
    ensures { IfOk result (λ book. book.history ≡ []) }
{
    let keeper = GatedKeeper::new(book_keeper(alloc, Fails::empty(alloc))?, gate);
    let held = Held {
        keeper,
        secrets: SeqSecrets::new(),
        spawner: FakeSpawner::new(alloc, Fails::empty(alloc)),
    };
    let sites = plain_sites(alloc)?;
    match small_desk(alloc, held, sites) {
        Ok(desk) => Ok(desk.into_locked()),
        Err(_) => Err(Fault::Memory),
    }
}

/// The key of ben's session on the second grain, which is ada's.
pub fn key_of_ben() -> Key {
    Key::Session(digest_of(BEN_KEY.as_bytes()))
}

/// Ada's login.
pub fn login_of_ada() -> Digest {
    digest_of(ADA_LOGIN.as_bytes())
}

/// Ada's order to share the second grain with ben.
pub fn share_with_ben(alloc: Global, assignment: Assignment) -> Order {
    Order::new(
        Caller::Login(login_of_ada()),
        Command::Share {
            grain: VOTE,
            to: BEN,
            assignment,
            needs: List::empty(alloc),
            expires: None,
        },
    )
}
