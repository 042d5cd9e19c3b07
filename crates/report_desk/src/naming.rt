//! What is held at a node, in the words that people know.

ghost use Rattle.std.specs.Prelude.{IfOk};
ghost use Rattle.share_graph.specs.Coherent.{IsCoherent};
ghost use Rattle.share_graph.specs.Known.{KnowsNode};
ghost use Rattle.access_report.specs.Entries.{IsOn};
ghost use Rattle.report_desk.specs.Lines.{AreNamesAt, IsHolder, IsLine};

use crate::holder::{Holder, ReportLine};
use host_base::{GrainId, Memory, Names};
use least_access::Held;
use perm_roles::PermSet;
use session_table::names_of;
use share_graph::{Node, Tables, account as find_account, app_of, grant as find_grant};
use std::alloc::Global;

// A node that is there, as people know it.
pub(crate) fn holder_of(tables: &Tables, node: Node) -> Result<Holder, Memory>
    requires { KnowsNode tables.now node }
    ensures { IfOk result (IsHolder tables.now node) }
{
    match node {
        Node::User(grain, num) => {
            let Some(account) = find_account(tables, num) else {
                unreachable!()
            };
            let handle = account.handle.clone()?;
            Ok(Holder::User {
                account: num,
                handle,
                grain,
            })
        }
        Node::Grant(num) => {
            let Some(grant) = find_grant(tables, num) else {
                unreachable!()
            };
            Ok(Holder::Grant {
                grant: num,
                grain: grant.grain,
            })
        }
    }
}

// The grain that a node is on.
fn grain_of(tables: &Tables, node: Node) -> GrainId
    requires { KnowsNode tables.now node }
    ensures { IsOn tables.now result node }
{
    match node {
        Node::User(grain, _) => grain,
        Node::Grant(num) => match find_grant(tables, num) {
            Some(grant) => grant.grain,
            None => unreachable!(),
        },
    }
}

// The names of the permissions of a set, by the application of a node's grain, in its order.
fn names_at(alloc: Global, tables: &Tables, node: Node, set: PermSet) -> Result<Names, Memory>
    requires coherent { IsCoherent tables.now }
    requires there { KnowsNode tables.now node }
    ensures { IfOk result (AreNamesAt tables.now node set) }
{
    let Some(app) = app_of(tables, grain_of(tables, node)) else {
        unreachable!()
    };
    names_of(alloc, app, set)
}

// The line of what is held at a node, or lost.
pub(crate) fn line_of(
    alloc: Global,
    tables: &Tables,
    node: Node,
    held: Held,
) -> Result<ReportLine, Memory>
    requires coherent { IsCoherent tables.now }
    requires there { KnowsNode tables.now node }
    ensures { IfOk result (IsLine tables.now node held) }
{
    let holder = holder_of(tables, node)?;
    let permissions = names_at(alloc, tables, node, held.perms)?;
    Ok(ReportLine {
        holder,
        entry: held.entry,
        permissions,
    })
}
