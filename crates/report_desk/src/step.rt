//! The steps of an explanation, as they are shown.

ghost use Rattle.std.specs.Prelude.{◌≡◌, ◌↔◌, IfOk};
ghost use Rattle.share_graph.specs.declared.facts.Fact as the_fact;
ghost use Rattle.share_graph.specs.Coherent.{IsCoherent};
ghost use Rattle.least_access.specs.Held.{IsIn};
ghost use Rattle.report_desk.specs.Reasons.{IsShownStep};
ghost use Rattle.report_desk.specs.Showing.{IsPlaced, IsShowable};

use crate::holder::ReportLine;
use crate::naming::line_of;
use crate::passing::{Passing, passed_by};
use access_report::Step;
use host_base::Memory;
use least_access::Held;
use perm_roles::PermSet;
use plain_data::List;
use share_graph::{Fact, Tables};
use std::alloc::Global;

/// A step of an explanation: what its line says is so as the owner of the grain, where nothing passes it on, or by a
/// grant, from what the steps at these places say, counted from 0. The line has entry, or one permission.
#[derive(Drop)]
pub struct ReasonStep {
    pub line: ReportLine,
    pub passing: Option<Passing>,
    pub from: List<u32>,
}

/// An explanation: its last step is what is explained.
pub type Reason = List<ReasonStep>;

/// An explanation of entry, and of each permission.
pub type Reasons = List<Reason>;

// One fact and no other.
fn only(fact: Fact) -> Held
    requires { IsPlaced fact }
    ensures { (other : the_fact.Fact) → IsIn result other ↔ other ≡ fact }
{
    match fact {
        Fact::Open => Held {
            entry: true,
            perms: PermSet::empty(),
        },
        Fact::Perm(pos) => Held {
            entry: false,
            perms: PermSet::all(pos + 1).minus(&PermSet::all(pos)),
        },
    }
}

// A step, as it is shown.
pub(crate) fn step_of(alloc: Global, tables: &Tables, step: &Step) -> Result<ReasonStep, Memory>
    requires coherent { IsCoherent tables.now }
    requires showable { IsShowable tables.now step.now }
    ensures { IfOk result (IsShownStep tables.now step.now) }
{
    let line = line_of(alloc, tables, step.node, only(step.fact))?;
    let passing = passed_by(tables, step.grant)?;
    let from = step.from.clone()?;
    Ok(ReasonStep {
        line,
        passing,
        from,
    })
}
