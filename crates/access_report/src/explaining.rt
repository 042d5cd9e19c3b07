//! Why a node holds a fact.

ghost use Rattle.std.specs.Prelude.{◌≡◌, [], IfOk, MatchOption};
ghost use Rattle.share_graph.specs.Coherent.{IsCoherent};
ghost use Rattle.share_graph.specs.Derivation.{Holds};
ghost use Rattle.region_access.specs.Arriving.{IsArrivalsOf};
ghost use Rattle.region_work.specs.Fed.{fed_in};
ghost use Rattle.access_report.specs.Explaining.{Concluding, Explains};
ghost use Rattle.access_report.specs.Telling.{IsSaid};

use crate::feeding::feeds_of;
use crate::pruning::pruned;
use crate::resting::rest_of;
use crate::spreading::{begin, start, tell_until};
use crate::step::Step;
use crate::trace::Trace;
use host_base::Memory;
use region_work::edges::Edges;
use share_graph::{Fact, Node, Tables};
use std::alloc::Global;

// The steps on which it rests that a node holds a fact, with the one that says so as the last.
fn conclude(alloc: Global, trace: &Trace, node: Node, fact: Fact) -> Result<Vec<Step>, Memory>
    requires { IsSaid trace.now node fact }
    ensures { IfOk result (λ kept. Concluding trace.now node fact kept.items) }
{
    let Some(place) = trace.place_of(node, fact) else {
        unreachable!()
    };
    let kept = pruned(alloc, trace.steps(), place as usize)?;
    Ok(kept)
}

/// Why a node holds a fact: nothing where it doesn't, else sound steps of which the last one says it, and each other one is named by a
/// later one. They are found breadth first, from what owners hold on. The nodes that are looked at are those from which the node can be
/// reached along shares and needs.
pub fn explain(
    alloc: Global,
    tables: &Tables,
    arrivals: &Edges,
    node: Node,
    fact: Fact,
) -> Result<Option<Vec<Step>>, Memory>
    requires coherent { IsCoherent tables.now }
    requires arrivals { IsArrivalsOf tables.now (fed_in arrivals.now.entries) }
    ensures { IfOk result (λ found. MatchOption found (Holds tables.now node fact → ⊥)
        (λ steps. Explains tables.now steps.items node fact)) }
{
    let rest = rest_of(alloc, tables, arrivals, node)?;
    let fed = feeds_of(alloc, tables, rest.grants.as_slice())?;
    let mut work = start(alloc, tables, &rest)?;
    begin(alloc, tables, &fed, &mut work, rest.nodes.as_slice())?;
    if !tell_until(alloc, tables, &fed, &mut work, node, fact)? {
        return Ok(None);
    }
    let kept = conclude(alloc, &work.trace, node, fact)?;
    Ok(Some(kept))
}
