//! Whether a step is one of the rules of sharing, by what earlier steps say.

ghost use Rattle.std.specs.Prelude.{◌≡◌, ◌↔◌, IsTrue};
ghost use Rattle.share_graph.specs.declared.facts.Fact.TheVariants as the_fact;
ghost use Rattle.share_graph.specs.declared.facts.Node.TheVariants as node;
ghost use Rattle.share_graph.specs.Coherent.{IsCoherent};
ghost use Rattle.share_graph.specs.Derivation.{Follows};
ghost use Rattle.share_graph.specs.Nodes.{node_of as the_node_of};
ghost use Rattle.share_graph.specs.Rows.{IsGrant};
ghost use Rattle.access_report.specs.Steps.{Cites, IsLawful};

use crate::citing::cites;
use crate::lawful::{is_in, is_open_site, lets_through, own_of};
use crate::needs::are_met;
use crate::step::Step;
use host_base::GrantId;
use share_graph::{Fact, Grant, Node, Tables, grant as find_grant, node_of, source_of};

// Whether a node is where a grant of that number holds its facts.
fn is_at(node: Node, num: GrantId, grant: &Grant) -> bool
    ensures { IsTrue result ↔ (node ≡ the_node_of num grant.now) }
{
    node == node_of(num, grant)
}

// Whether a step says that a grant holds entry.
fn is_entry_of(step: &Step, num: GrantId) -> bool
    ensures { IsTrue result ↔ ((step.now.node ≡ node.Grant num) × (step.now.fact ≡ the_fact.Open)) }
{
    step.node == Node::Grant(num) && step.fact == Fact::Open
}

// Whether a step follows by a grant of that number from what steps before a place say.
fn follows(
    tables: &Tables,
    steps: &[Step],
    before: usize,
    num: GrantId,
    grant: &Grant,
    step: &Step,
) -> bool
    requires coherent { IsCoherent tables.now }
    requires row { IsGrant tables.now num grant.now }
    ensures { IsTrue result ↔ Follows tables.now (Cites steps.now before step.now.from) num grant.now
        step.now.node step.now.fact }
{
    let from = step.from.as_slice();
    if !are_met(tables, steps, before, from, grant.needs.as_slice()) {
        return false;
    }
    match source_of(grant) {
        Some(source) => {
            lets_through(tables, num, grant, step.fact)
                && is_at(step.node, num, grant)
                && cites(steps, before, from, source, step.fact)
        }
        None => is_open_site(tables, num, grant) && is_entry_of(step, num),
    }
}

/// Whether a step is lawful by what the steps before a place say.
pub fn is_lawful(tables: &Tables, steps: &[Step], before: usize, step: &Step) -> bool
    requires { IsCoherent tables.now }
    ensures { IsTrue result ↔ IsLawful tables.now (Cites steps.now before step.now.from) step.now }
{
    let Some(num) = step.grant else {
        return is_in(&own_of(tables, step.node), step.fact);
    };
    match find_grant(tables, num) {
        Some(grant) => follows(tables, steps, before, num, grant, step),
        None => false,
    }
}
