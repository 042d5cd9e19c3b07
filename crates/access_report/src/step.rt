use host_base::GrantId;
use plain_data::List;
use share_graph::{Fact, Node};

/// A step of an explanation: a node holds a fact, as the owner of its grain or by a grant, from what the steps at these places say.
/// The places are those of what the grant's source holds, and then of what its needs ask, in their order.
pub struct Step {
    pub node: Node,
    pub fact: Fact,
    pub grant: Option<GrantId>,
    pub from: List<u32>,
}

// Written by hand, as those of rows are: a proof then has one call wherever a step is let go.
impl Drop for Step {
    fn drop(self) {
        let Step {
            node: _,
            fact: _,
            grant: _,
            from: _,
        } = self;
    }
}
