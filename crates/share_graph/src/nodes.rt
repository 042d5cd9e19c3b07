ghost use Rattle.std.specs.Prelude.{◌≡◌};
ghost use Rattle.share_graph.specs.Nodes.{node_of as the_node_of, source_of as the_source_of};

use crate::facts::Node;
use crate::grants::{Giver, Grant, Target};
use host_base::GrantId;

/// Where the facts of a grant of that number are held: at the account on its grain that it goes to, else at the grant itself.
pub fn node_of(num: GrantId, grant: &Grant) -> Node
    ensures { result ≡ the_node_of num grant.now }
{
    match grant.target {
        Target::User(account) => Node::User(grant.grain, account),
        Target::Bearer { .. } => Node::Grant(num),
        Target::Claim(_) => Node::Grant(num),
        Target::Grain(_) => Node::Grant(num),
    }
}

/// What a grant was given from: its giver on its grain, another grant, or nothing where the site gave it.
pub fn source_of(grant: &Grant) -> Option<Node>
    ensures { result ≡ the_source_of grant.now }
{
    match grant.giver {
        Giver::Account(account) => Some(Node::User(grant.grain, account)),
        Giver::Grant(parent) => Some(Node::Grant(parent)),
        Giver::Site { .. } => None,
    }
}
