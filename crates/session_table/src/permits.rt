//! The verdict on who stands behind a good key.

ghost use Rattle.std.specs.Prelude.{◌≡◌, IfOk};
ghost use Rattle.share_graph.specs.declared.facts.Fact.TheVariants.{Open};
ghost use Rattle.share_graph.specs.Checked.{IsChecked};
ghost use Rattle.share_graph.specs.Derivation.{Holds};
ghost use Rattle.least_access.specs.Solved.{IsSolutionOf};
ghost use Rattle.session_table.specs.Behind.{IsBehind};
ghost use Rattle.session_table.specs.Standing.{node_on as the_node_on};
ghost use Rattle.session_table.specs.Verdict.{IsPermit, Stands};

use crate::names::names_of;
use crate::showing::shown_for;
use host_base::{Denial, GrainId, Memory, Permit, TabMark, Verdict};
use least_access::Solved;
use share_graph::{Node, Root, Run, State, app_of, live_run};
use std::alloc::Global;

// The node of a root on a grain: the account there, or the grant.
fn node_on(num: GrainId, root: Root) -> Node
    ensures { result ≡ the_node_on num root }
{
    match root {
        Root::Account(account) => Node::User(num, account),
        Root::Grant(grant) => Node::Grant(grant),
    }
}

// Where requests go and with what.
fn permit_of(
    alloc: Global,
    state: &State,
    solved: &Solved,
    num: GrainId,
    root: Root,
    tab: Option<TabMark>,
    run: &Run,
) -> Result<Permit, Memory>
    requires checked { IsChecked state.now.tables }
    requires solution { IsSolutionOf state.now.tables solved.now }
    requires there { IsBehind state.now.tables (record { grain = num; root = root; tab = tab }) }
    requires entry { Holds state.now.tables (the_node_on num root) Open }
    ensures { IfOk result (IsPermit state.now (record { grain = num; root = root; tab = tab }) run.now) }
{
    let Some(set) = solved.access(node_on(num, root)) else {
        unreachable!()
    };
    let Some(app) = app_of(&state.tables, num) else {
        unreachable!()
    };
    let names = names_of(alloc, app, set)?;
    let shown = shown_for(&state.tables, root)?;
    Ok(Permit {
        run: run.num,
        grain: num,
        names,
        shown,
        tab,
    })
}

/// The verdict on who stands on a grain: the first step that is missing, else that the grain has no live run, else a permit.
pub fn stands(
    alloc: Global,
    state: &State,
    solved: &Solved,
    num: GrainId,
    root: Root,
    tab: Option<TabMark>,
) -> Result<Verdict, Memory>
    requires checked { IsChecked state.now.tables }
    requires solution { IsSolutionOf state.now.tables solved.now }
    requires there { IsBehind state.now.tables (record { grain = num; root = root; tab = tab }) }
    ensures { IfOk result (Stands state.now (record { grain = num; root = root; tab = tab })) }
{
    let missing = solved.why_not(&state.tables, node_on(num, root));
    if let Some(reason) = missing {
        return Ok(Verdict::Deny(reason));
    }
    let Some(run) = live_run(state, num) else {
        return Ok(Verdict::Deny(Denial::GrainStopped(num)));
    };
    let permit = permit_of(alloc, state, solved, num, root, tab, run)?;
    Ok(Verdict::Forward(permit))
}
