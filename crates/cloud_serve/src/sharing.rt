//! Shares for all members of a collection that are owed one.
ghost use Rattle.std.specs.Prelude.{◌≡◌, ℕ, ◌≤◌, false, true, length, IfOk, None, Some, MatchResult};
ghost use Rattle.cloud_serve.specs.Acts.{is_done};
ghost use Rattle.cloud_serve.specs.Collecting.{EndsWith, giving, listed_by, question, shows_share};
ghost use Rattle.cloud_serve.specs.Effects.{Came};
ghost use Rattle.cloud_serve.specs.Inner.{EndsEach, EndsRound};

use host_base::{AccountId, Digest, GrainId, GrantId};
use hub_core::{Command, Desk, Listing, Order, OrderFault, Reply};
use plain_data::List;
use share_graph::Caller;
use std::alloc::Global;

/// How many shares one call gives at the most, but for those of its last round: more than there can be members.
pub const SHARE_LIMIT: u64 = 4096;

/// Who collects what: a curator, by the digest of its login, the collection, and the link by which it lists a grain there.
#[derive(Clone, Copy)]
pub struct Collecting {
    pub curator: Digest,
    pub collection: GrainId,
    pub link: GrantId,
}

/// An order that wasn't carried out, by its answer.
pub type Stopped = Result<Reply, OrderFault>;

impl Collecting {
    // The question which members are owed a share.
    fn question(&self) -> Order
        ensures { result ≡ question self.now }
    {
        Order::new(
            Caller::Login(self.curator),
            Command::Missing(self.collection, self.link),
        )
    }

    // The order that gives a member the share that it is owed.
    fn giving(&self, member: AccountId) -> Order
        ensures { result ≡ giving self.now member }
    {
        Order::new(
            Caller::Login(self.curator),
            Command::Collect {
                collection: self.collection,
                link: self.link,
                member,
            },
        )
    }
}

// The members that an answer lists, or the answer.
fn listed(answer: Stopped) -> Result<List<AccountId>, Stopped>
    ensures { MatchResult result (λ members. listed_by answer ≡ Some members)
        (λ back. (listed_by answer ≡ None) × (back ≡ answer)) }
{
    match answer {
        Ok(Reply::Listed(Listing::Owed(members))) => Ok(members),
        other => Err(other),
    }
}

// Whether an order that was carried out gave a share, or the answer where it wasn't.
fn given(answer: Stopped) -> Result<bool, Stopped>
    ensures { MatchResult result (λ gave. (is_done answer ≡ true) × (gave ≡ shows_share answer))
        (λ back. (is_done answer ≡ false) × (back ≡ answer)) }
{
    match answer {
        Ok(Reply::Made(made, _)) => Ok(made.grant.is_some()),
        other => Err(other),
    }
}

// Gives each of some members the share that it is owed, until an order isn't carried out; how many shares were given. `place` is the one before.
fn give_each<D: Desk>(
    alloc: Global,
    asks: &Collecting,
    members: &[AccountId],
    mut place: u64,
    desk: &mut D,
) -> (u64, Result<u64, Stopped>)
    ensures few { IfOk result.1 (λ made. made ≤ 9223372036854775807) }
    ensures gave { Came asks.now place (D.book desk.old) (D.book desk.new) result.0
        (λ acts. EndsEach asks.now members.now acts result.1) }
{
    let mut made = 0;
    for member in members {
        let (at, answer) = desk.order(alloc, asks.giving(*member));
        place = at;
        match given(answer) {
            Ok(gave) => made += u64::from(gave),
            Err(back) => return (place, Err(back)),
        }
    }
    (place, Ok(made))
}

// One round: asks which members are owed a share, and gives each of them its own.
fn one_round<D: Desk>(alloc: Global, asks: &Collecting, desk: &mut D) -> (u64, Result<u64, Stopped>)
    ensures few { IfOk result.1 (λ made. made ≤ 9223372036854775807) }
    ensures rounds { (place : ℕ) → Came asks.now place (D.book desk.old) (D.book desk.new) result.0
        (λ acts. EndsRound asks.now acts result.1) }
{
    let (place, answer) = desk.order(alloc, asks.question());
    match listed(answer) {
        Ok(members) => give_each(alloc, asks, members.as_slice(), place, desk),
        Err(back) => (place, Err(back)),
    }
}

/// Gives each member of a collection the share that it is owed, in rounds, since a share can make a further account a member. Each share is
/// an order of its own, and others may be answered in between. Returns the place of the last order, and how many shares were given, or the
/// answer to the first order that wasn't carried out; the shares before it stand.
pub fn collect_members<D: Desk>(
    alloc: Global,
    asks: &Collecting,
    desk: &mut D,
) -> (u64, Result<u64, Stopped>)
    ensures collected { Came asks.now (length (D.book desk.old).seen) (D.book desk.old) (D.book desk.new) result.0
        (λ acts. EndsWith asks.now acts result.1) }
{
    let mut place = desk.place();
    let mut shared = 0;
    'rounds: while shared < SHARE_LIMIT {
        let (at, outcome) = one_round(alloc, asks, desk);
        place = at;
        match outcome {
            Ok(made) => {
                if made == 0 {
                    return (place, Ok(shared));
                }
                shared += made;
            }
            Err(back) => return (place, Err(back)),
        }
    }
    (place, Ok(shared))
}
