//! What the nodes on a grain hold.

ghost use Rattle.std.specs.Prelude.{◌≡◌, ◌↔◌, Contains, IsSome, OnOk};
ghost use Rattle.host_base.specs.declared.ids.GrantId as the_id;
ghost use Rattle.share_graph.specs.declared.facts.Fact as the_fact;
ghost use Rattle.share_graph.specs.declared.grants.Grant as the_grant;
ghost use Rattle.share_graph.specs.declared.rows.Grain as the_grain;
ghost use Rattle.share_graph.specs.declared.facts.Node.TheVariants as node;
ghost use Rattle.share_graph.specs.Nodes.{node_of as the_node_of};
ghost use Rattle.share_graph.specs.Rows.{IsGrain, IsGrant};
ghost use Rattle.least_access.specs.Held.{IsIn};
ghost use Rattle.least_access.specs.Solved.{HeldAt, held_at};
ghost use Rattle.access_report.specs.Found.{AreFound, HasOneMore, HasPlaces, IsGrantOn};

use host_base::{GrainId, GrantId, Memory};
use least_access::table::{Table, holding, set};
use least_access::{Held, Solved};
use share_graph::{Node, Tables, grain as find_grain, grant as find_grant, node_of};

/// What a node holds.
pub fn held_by(solved: &Solved, node: Node) -> Held
    ensures { (fact : the_fact.Fact) → IsIn result fact ↔ HeldAt solved.now node fact }
{
    holding(&solved.table, node)
}

// Adds what a node holds.
fn add_node(found: &mut Table, solved: &Solved, node: Node) -> Result<(), Memory>
    ensures { OnOk result (HasOneMore solved.now found.old.entries found.new.entries node) }
{
    set(found, node, held_by(solved, node))?;
    Ok(())
}

/// Adds what the owner of a grain holds there, if the grain is there.
pub fn add_owner(
    found: &mut Table,
    solved: &Solved,
    tables: &Tables,
    num: GrainId,
) -> Result<(), Memory>
    ensures found { OnOk result (AreFound tables.now num solved.now found.old.entries
        → AreFound tables.now num solved.now found.new.entries) }
    ensures there { OnOk result ((grain : the_grain.Grain) → IsGrain tables.now num grain
        → IsSome (held_at found.new.entries (node.User num grain.owner))) }
{
    let Some(grain) = find_grain(tables, num) else {
        return Ok(());
    };
    add_node(found, solved, Node::User(num, grain.owner))?;
    Ok(())
}

/// Where a grant of that number holds its facts.
pub fn node_by(tables: &Tables, num: GrantId) -> Node
    requires { (grant : the_grant.Grant) × IsGrant tables.now num grant }
    ensures { (grant : the_grant.Grant) → IsGrant tables.now num grant → result ≡ the_node_of num grant }
{
    match find_grant(tables, num) {
        Some(grant) => node_of(num, grant),
        None => unreachable!(),
    }
}

/// Adds what is held where grants on a grain hold their facts.
pub fn add_grants(
    found: &mut Table,
    solved: &Solved,
    tables: &Tables,
    grain: GrainId,
    grants: &[GrantId],
) -> Result<(), Memory>
    requires { (num : the_id.GrantId) → Contains grants.now num → IsGrantOn tables.now grain num }
    ensures found { OnOk result (AreFound tables.now grain solved.now found.old.entries
        → AreFound tables.now grain solved.now found.new.entries) }
    ensures keeps { OnOk result (HasPlaces found.old.entries found.new.entries) }
    ensures there { OnOk result ((num : the_id.GrantId) (grant : the_grant.Grant) → Contains grants.now num
        → IsGrant tables.now num grant → IsSome (held_at found.new.entries (the_node_of num grant))) }
{
    for num in grants {
        add_node(found, solved, node_by(tables, *num))?;
    }
    Ok(())
}
