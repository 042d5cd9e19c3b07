use perm_roles::PermSet;
use share_graph::Node;

/// A node that has access to a grain, and the permissions that it holds there.
#[derive(Clone, Copy, Debug, PartialEq, Eq)]
pub struct Entry {
    pub node: Node,
    pub perms: PermSet,
}
