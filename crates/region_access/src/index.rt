//! Indexes from keys to grants.

ghost use Rattle.std.specs.Prelude.{◌≡◌, true};
ghost use Rattle.std.specs.Ordering.{is_eq};
ghost use Rattle.least_access.proofs.Nodes.{same_node};
ghost use Rattle.region_access.specs.Keys.{same_tie};

use crate::tie::Tie;
use host_base::GrantId;
use share_graph::Node;
use std::collections::BTreeMap;

/// What grants are found by: a key that its order tells from each other one.
pub trait Key: Ord + Copy + Drop {
    ghost apart: { (a b : Self) → is_eq (Self.cmp a b) ≡ true → a ≡ b };
}

impl Key for Node {
    ghost apart = { same_node };
}

impl Key for Tie {
    ghost apart = { same_tie };
}

/// For each key some grants.
pub type Index<K> = BTreeMap<K, Vec<GrantId>>;

/// For each grain the grants on it, for each account the grants that need it to be an admin, and for each moment the grants that
/// end then.
pub type Ties = Index<Tie>;
