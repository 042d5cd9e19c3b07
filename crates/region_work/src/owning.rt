//! What owners hold.

ghost use Rattle.std.specs.Prelude.{◌≡◌, Contains, IsSome};
ghost use Rattle.host_base.specs.declared.ids.GrainId.{GrainId};
ghost use Rattle.share_graph.specs.declared.facts.Fact.{Fact};
ghost use Rattle.share_graph.specs.declared.facts.Node.{Node};
ghost use Rattle.share_graph.specs.declared.facts.Node.TheVariants as node;
ghost use Rattle.share_graph.specs.declared.rows.App.{App};
ghost use Rattle.share_graph.specs.declared.rows.Grain.{Grain};
ghost use Rattle.share_graph.specs.Coherent.{IsCoherent};
ghost use Rattle.share_graph.specs.Derivation.{Owns, IsFactOf};
ghost use Rattle.least_access.specs.Rounds.{IsSound};
ghost use Rattle.least_access.specs.Solved.{held_at, HeldAt};
ghost use Rattle.region_work.specs.Work.{Finds};

use crate::probe::Probe;
use crate::waiting::Waiting;
use share_graph::Node;

// Adds what a node holds as an owner to what was found.
fn find_own<V: Probe>(probe: &V, waiting: &mut Waiting, at: Node)
    requires coherent { IsCoherent (V.tables probe.now) }
    requires place { IsSome (held_at waiting.old.found at) }
    ensures finds { Finds waiting.old waiting.new }
    ensures owners { (num : GrainId) (grain : Grain) (app : App) (fact : Fact)
        → at ≡ node.User num grain.owner → Owns (V.tables probe.now) num grain app
        → IsFactOf app fact → HeldAt waiting.new.found at fact }
    ensures sound { IsSound (V.tables probe.now) waiting.old.found
        → IsSound (V.tables probe.now) waiting.new.found }
{
    if let Node::User(num, account) = at {
        waiting.find(at, &probe.own(num, account));
    }
}

/// Adds what nodes hold as owners to what was found.
pub fn find_owned<V: Probe>(probe: &V, waiting: &mut Waiting, nodes: &[Node])
    requires coherent { IsCoherent (V.tables probe.now) }
    requires places { (at : Node) → Contains nodes.now at → IsSome (held_at waiting.old.found at) }
    ensures finds { Finds waiting.old waiting.new }
    ensures owners { (num : GrainId) (grain : Grain) (app : App) (fact : Fact)
        → Contains nodes.now (node.User num grain.owner) → Owns (V.tables probe.now) num grain app
        → IsFactOf app fact → HeldAt waiting.new.found (node.User num grain.owner) fact }
    ensures sound { IsSound (V.tables probe.now) waiting.old.found
        → IsSound (V.tables probe.now) waiting.new.found }
{
    for node in nodes {
        find_own(probe, waiting, *node);
    }
}
