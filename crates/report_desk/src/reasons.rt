//! Why an account has access to a grain, whoever asks.

ghost use Rattle.std.specs.Prelude.{◌↔◌, Contains, IfOk};
ghost use Rattle.std.specs.List.{AllZip};
ghost use Rattle.access_report.specs.declared.step.Step as the_step;
ghost use Rattle.least_access.specs.Held.{IsIn};
ghost use Rattle.least_access.specs.Solved.{HeldAt};
ghost use Rattle.live_access.specs.Kept.{IsSolvedFor};
ghost use Rattle.share_graph.specs.Checked.{IsChecked};
ghost use Rattle.share_graph.specs.Coherent.{IsCoherent};
ghost use Rattle.share_graph.specs.Derivation.{Holds};
ghost use Rattle.share_graph.specs.Known.{HasAccount, HasGrain};
ghost use Rattle.share_graph.specs.declared.facts.Fact as the_fact;
ghost use Rattle.share_graph.specs.declared.facts.Node.TheVariants as node;
ghost use Rattle.report_desk.specs.Reasons.{AreReasons, IsReason, IsShownStep};
ghost use Rattle.report_desk.specs.Showing.{AreFactsOf, IsShowable};

use crate::step::{Reason, ReasonStep, Reasons, step_of};
use access_report::{Step, explain};
use host_base::{AccountId, GrainId, Memory};
use least_access::Held;
use least_access::table::holding;
use live_access::Solution;
use plain_data::List;
use share_graph::{Fact, Node, Tables};
use std::alloc::Global;

// What an account holds on a grain.
fn held_on(solution: &Solution, grain: GrainId, account: AccountId) -> Held
    ensures { (fact : the_fact.Fact) → IsIn result fact
        ↔ HeldAt solution.now.table (node.User grain account) fact }
{
    holding(&solution.solved().table, Node::User(grain, account))
}

// The facts that are held: entry, and then permissions by position.
fn facts_of(alloc: Global, held: &Held) -> Result<Vec<Fact>, Memory>
    ensures { IfOk result (λ facts. AreFactsOf held.now facts.items) }
{
    let mut facts = Vec::new(alloc);
    if held.entry {
        facts.push(Fact::Open)?;
    }
    for pos in 0..64u8 {
        if held.perms.has(pos) {
            facts.push(Fact::Perm(pos))?;
        }
    }
    Ok(facts)
}

// Each step, as it is shown.
fn steps_of(alloc: Global, tables: &Tables, steps: &[Step]) -> Result<Vec<ReasonStep>, Memory>
    requires coherent { IsCoherent tables.now }
    requires showable { (step : the_step.Step) → Contains steps.now step → IsShowable tables.now step }
    ensures { IfOk result (λ shown. AllZip (IsShownStep tables.now) steps.now shown.items) }
{
    let mut shown = Vec::new(alloc);
    for step in steps {
        shown.push(step_of(alloc, tables, step)?)?;
    }
    Ok(shown)
}

// Why an account holds a fact on a grain.
fn reason_of(
    alloc: Global,
    tables: &Tables,
    solution: &Solution,
    grain: GrainId,
    account: AccountId,
    fact: Fact,
) -> Result<Reason, Memory>
    requires coherent { IsCoherent tables.now }
    requires solved { IsSolvedFor tables.now solution.now }
    requires held { Holds tables.now (node.User grain account) fact }
    ensures { IfOk result (IsReason tables.now grain account fact) }
{
    let node = Node::User(grain, account);
    let Some(steps) = explain(alloc, tables, solution.arrivals(), node, fact)? else {
        unreachable!()
    };
    let shown = steps_of(alloc, tables, steps.as_slice())?;
    Ok(List::new(shown))
}

// Why an account holds each of some facts on a grain.
fn reasons_for(
    alloc: Global,
    tables: &Tables,
    solution: &Solution,
    grain: GrainId,
    account: AccountId,
    facts: &[Fact],
) -> Result<Vec<Reason>, Memory>
    requires coherent { IsCoherent tables.now }
    requires solved { IsSolvedFor tables.now solution.now }
    requires held { (fact : the_fact.Fact) → Contains facts.now fact
        → Holds tables.now (node.User grain account) fact }
    ensures { IfOk result (λ reasons. AllZip (IsReason tables.now grain account) facts.now reasons.items) }
{
    let mut reasons = Vec::new(alloc);
    for fact in facts {
        reasons.push(reason_of(alloc, tables, solution, grain, account, *fact)?)?;
    }
    Ok(reasons)
}

/// Why an account has access to a grain, both of which are there: an explanation of entry, if it is held, and then of
/// each permission that is held, by position.
pub fn reasons_of(
    alloc: Global,
    tables: &Tables,
    solution: &Solution,
    grain: GrainId,
    account: AccountId,
) -> Result<Reasons, Memory>
    requires checked { IsChecked tables.now }
    requires grain { HasGrain tables.now grain }
    requires account { HasAccount tables.now account }
    requires solved { IsSolvedFor tables.now solution.now }
    ensures { IfOk result (AreReasons tables.now grain account) }
{
    let held = held_on(solution, grain, account);
    let facts = facts_of(alloc, &held)?;
    let reasons = reasons_for(alloc, tables, solution, grain, account, facts.as_slice())?;
    Ok(List::new(reasons))
}
