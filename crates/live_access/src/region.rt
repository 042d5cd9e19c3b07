ghost use Rattle.std.specs.Prelude.{◌≡◌};
ghost use Rattle.live_access.specs.Ready.{starts_of};

use host_base::GrantId;
use region_access::{NewGrant, Room};
use share_graph::Node;

/// The region of an event, ready to be solved again: its room, the seeds of the event, the grants that are asked first, and the
/// grant that the event adds.
#[derive(Drop)]
pub struct Region {
    pub room: Room,
    pub seeds: Vec<Node>,
    pub grants: Vec<GrantId>,
    pub added: Option<NewGrant>,
}

impl Region {
    /// The grants that are asked first, each once: those that go to its nodes once the event has happened, or, where it only adds, to
    /// its seeds.
    pub fn grants(&self) -> &[GrantId]
        ensures { result.now ≡ self.now.grants.items }
    {
        self.grants.as_slice()
    }
}

/// The nodes whose grants are asked first: the seeds of a change that only adds, and else all of the region.
pub fn starts_of<'a>(room: &'a Room, seeds: &'a [Node]) -> &'a [Node]
    ensures { result.now ≡ starts_of room.now.grows seeds.now room.now.nodes.items }
{
    if room.grows {
        seeds
    } else {
        room.nodes.as_slice()
    }
}
