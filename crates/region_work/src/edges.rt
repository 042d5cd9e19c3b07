ghost use Rattle.std.specs.Prelude.{◌≡◌};
ghost use Rattle.region_work.specs.Fed.{fed_in};

use host_base::GrantId;
use share_graph::Node;
use std::collections::BTreeMap;

/// For each node the grants that it feeds, as their source or in a need.
pub type Edges = BTreeMap<Node, Vec<GrantId>>;

/// The grants that a node feeds.
pub fn fed_by(edges: &Edges, node: Node) -> &[GrantId]
    ensures { result.now ≡ fed_in edges.now.entries node }
{
    match edges.get(&node) {
        Some(fed) => fed.as_slice(),
        None => &[],
    }
}
