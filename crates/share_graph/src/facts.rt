ghost use Rattle.std.specs.Prelude.{◌≡◌};
ghost use Rattle.share_graph.specs.NodeOrder as order;

use host_base::{AccountId, GrainId, GrantId};
use std::cmp::Ordering;

/// What can be held on a grain: entry, or the permission at a position of the application's list.
#[derive(Clone, Copy, Debug, PartialEq, Eq)]
pub enum Fact {
    Open,
    Perm(u8),
}

/// Who can hold facts: an account on a grain, or a grant. Their order is by account and then by grain, with the grants after
/// all of these, so that the nodes of an account stand together.
#[derive(Clone, Copy, Debug, PartialEq, Eq)]
pub enum Node {
    User(GrainId, AccountId),
    Grant(GrantId),
}

impl Node {
    // The numbers by which nodes are ordered.
    fn key(&self) -> (u8, (u32, u32))
        ensures { result ≡ order.key_of self.now }
    {
        match *self {
            Node::User(grain, account) => (0, (account.0, grain.0)),
            Node::Grant(grant) => (1, (grant.0, 0)),
        }
    }
}

impl PartialOrd for Node {
    ghost use Rattle.std.specs.Prelude.{Some, refl};
    ghost use Rattle.std.specs.Cmp.{partial_order_from_agreeing_total};

    ghost partial_cmp = { λ x y. Some (order.node_cmp x y) };

    ghost laws = { partial_order_from_agreeing_total order.node_cmp order.node_total (λ x y. refl) order.node_ties };

    fn partial_cmp(&self, other: &Node) -> Option<Ordering> {
        Some(self.cmp(other))
    }
}

impl Ord for Node {
    ghost use Rattle.std.specs.Prelude.{refl};

    ghost cmp = { order.node_cmp };

    ghost total = { order.node_total };

    ghost matches_partial_cmp = { λ x y. refl };

    ghost matches_eq = { order.node_ties };

    fn cmp(&self, other: &Node) -> Ordering {
        self.key().cmp(&other.key())
    }
}
