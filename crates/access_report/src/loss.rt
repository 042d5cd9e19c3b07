use perm_roles::PermSet;
use share_graph::Node;

/// What a node would lose by a revocation: entry, and permissions.
#[derive(Clone, Copy, Debug, PartialEq, Eq)]
pub struct Loss {
    pub node: Node,
    pub entry: bool,
    pub perms: PermSet,
}
