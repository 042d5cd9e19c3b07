//! The seeds of an event: the nodes at which it may give or take something by itself.

ghost use Rattle.std.specs.Prelude.{◌≡◌, ◌⊎◌, ◌↔◌, ◌∷◌, [], Some, IfOk, OnOk, Contains};
ghost use Rattle.share_graph.specs.declared.facts.Node.{Node};
ghost use Rattle.share_graph.specs.Coherent.{HasNumbers};
ghost use Rattle.region_access.specs.Seeds.{IsSeedOfGrant, IsSeedOfGrants, IsSeedOfTie, IsSeedOfOwner, IsSeedOfGrain, IsSeedOfGrains, IsSeedOfApp, IsSeedOfAdmin, IsNodeOfAccount, IsSeedOfAccount, IsSeedOfTies, IsSeedOfTick, IsSeedOf};
ghost use Rattle.region_access.specs.Ties.{IsTiesOf, tied_in};

use crate::grains_of::grains_of;
use crate::index::Ties;
use crate::pushing::push_some;
use crate::tie::Tie;
use crate::tying::tied_by;
use host_base::{AccountId, AppId, GrainId, GrantId, Memory};
use share_graph::{Event, Node, Tables, grain, grant, node_of};
use std::alloc::Global;
use std::collections::btree_map::Range;

// One node alone.
fn one(alloc: Global, node: Node) -> Result<Vec<Node>, Memory>
    ensures { IfOk result (λ nodes. nodes.items ≡ node ∷ []) }
{
    let mut nodes = Vec::new(alloc);
    match nodes.push(node) {
        Ok(_) => Ok(nodes),
        Err(_) => Err(Memory),
    }
}

// The node of a grant, if the grant is there.
fn node_there(tables: &Tables, num: GrantId) -> Option<Node>
    ensures { (at : Node) → (result ≡ Some at) ↔ IsSeedOfGrant tables.now num at }
{
    match grant(tables, num) {
        Some(row) => Some(node_of(num, row)),
        None => None,
    }
}

// Adds the nodes of grants.
fn add_nodes(tables: &Tables, nodes: &mut Vec<Node>, nums: &[GrantId]) -> Result<(), Memory>
    ensures { OnOk result ((at : Node)
        → Contains nodes.new.items at ↔ (Contains nodes.old.items at
        ⊎ IsSeedOfGrants tables.now nums.now at)) }
{
    for num in nums {
        push_some(nodes, node_there(tables, *num))?;
    }
    Ok(())
}

// Adds the nodes of the grants that hang on a tie.
fn add_tied(tables: &Tables, ties: &Ties, nodes: &mut Vec<Node>, on: Tie) -> Result<(), Memory>
    requires { IsTiesOf tables.now (tied_in ties.now.entries) }
    ensures { OnOk result ((at : Node)
        → Contains nodes.new.items at ↔ (Contains nodes.old.items at
        ⊎ IsSeedOfTie tables.now on at)) }
{
    add_nodes(tables, nodes, tied_by(ties, on))
}

// Adds an account's own node on each grain.
fn add_own(tables: &Tables, nodes: &mut Vec<Node>, account: AccountId) -> Result<(), Memory>
    requires { HasNumbers tables.now }
    ensures { OnOk result ((at : Node)
        → Contains nodes.new.items at ↔ (Contains nodes.old.items at
        ⊎ IsNodeOfAccount tables.now account at)) }
{
    for (place, _grain) in tables.grains.as_slice().iter().enumerate() {
        let Ok(_) = nodes.push(Node::User(GrainId(place as u32 + 1), account)) else {
            return Err(Memory);
        };
    }
    Ok(())
}

// The node of a grant that is there.
fn grant_node(alloc: Global, tables: &Tables, num: GrantId) -> Result<Vec<Node>, Memory>
    ensures { IfOk result (λ nodes. (at : Node) → Contains nodes.items at ↔ IsSeedOfGrant tables.now num at) }
{
    let mut nodes = Vec::new(alloc);
    push_some(&mut nodes, node_there(tables, num))?;
    Ok(nodes)
}

// The owner's node of a grain, if the grain is there.
fn owner_there(tables: &Tables, num: GrainId) -> Option<Node>
    ensures { (at : Node) → (result ≡ Some at) ↔ IsSeedOfOwner tables.now num at }
{
    match grain(tables, num) {
        Some(row) => Some(Node::User(num, row.owner)),
        None => None,
    }
}

// Adds the owner's node of a grain, and the nodes of its grants.
fn add_of_grain(
    tables: &Tables,
    ties: &Ties,
    nodes: &mut Vec<Node>,
    num: GrainId,
) -> Result<(), Memory>
    requires { IsTiesOf tables.now (tied_in ties.now.entries) }
    ensures { OnOk result ((at : Node)
        → Contains nodes.new.items at ↔ (Contains nodes.old.items at
        ⊎ IsSeedOfGrain tables.now num at)) }
{
    push_some(nodes, owner_there(tables, num))?;
    add_tied(tables, ties, nodes, Tie::Grain(num))
}

// The owner's node of a grain, and the nodes of its grants.
fn seeds_of_grain(
    alloc: Global,
    tables: &Tables,
    ties: &Ties,
    num: GrainId,
) -> Result<Vec<Node>, Memory>
    requires { IsTiesOf tables.now (tied_in ties.now.entries) }
    ensures { IfOk result (λ nodes. (at : Node) → Contains nodes.items at ↔ IsSeedOfGrain tables.now num at) }
{
    let mut nodes = Vec::new(alloc);
    add_of_grain(tables, ties, &mut nodes, num)?;
    Ok(nodes)
}

// Adds those of some grains.
fn add_of_grains(
    tables: &Tables,
    ties: &Ties,
    nodes: &mut Vec<Node>,
    nums: &[GrainId],
) -> Result<(), Memory>
    requires { IsTiesOf tables.now (tied_in ties.now.entries) }
    ensures { OnOk result ((at : Node)
        → Contains nodes.new.items at ↔ (Contains nodes.old.items at
        ⊎ IsSeedOfGrains tables.now nums.now at)) }
{
    for num in nums {
        add_of_grain(tables, ties, nodes, *num)?;
    }
    Ok(())
}

// Those of each grain of an application.
fn seeds_of_app(
    alloc: Global,
    tables: &Tables,
    ties: &Ties,
    app: AppId,
) -> Result<Vec<Node>, Memory>
    requires numbers { HasNumbers tables.now }
    requires ties { IsTiesOf tables.now (tied_in ties.now.entries) }
    ensures { IfOk result (λ nodes. (at : Node) → Contains nodes.items at ↔ IsSeedOfApp tables.now app at) }
{
    let nums = grains_of(alloc, tables, app)?;
    let mut nodes = Vec::new(alloc);
    add_of_grains(tables, ties, &mut nodes, nums.as_slice())?;
    Ok(nodes)
}

// The nodes of the grants that need an account to be an admin.
fn seeds_of_admin(
    alloc: Global,
    tables: &Tables,
    ties: &Ties,
    account: AccountId,
) -> Result<Vec<Node>, Memory>
    requires { IsTiesOf tables.now (tied_in ties.now.entries) }
    ensures { IfOk result (λ nodes. (at : Node)
        → Contains nodes.items at ↔ IsSeedOfAdmin tables.now account at) }
{
    let mut nodes = Vec::new(alloc);
    add_tied(tables, ties, &mut nodes, Tie::Admin(account))?;
    Ok(nodes)
}

// Those, and the account's own node on each grain.
fn seeds_of_account(
    alloc: Global,
    tables: &Tables,
    ties: &Ties,
    account: AccountId,
) -> Result<Vec<Node>, Memory>
    requires numbers { HasNumbers tables.now }
    requires ties { IsTiesOf tables.now (tied_in ties.now.entries) }
    ensures { IfOk result (λ nodes. (at : Node)
        → Contains nodes.items at ↔ IsSeedOfAccount tables.now account at) }
{
    let mut nodes = seeds_of_admin(alloc, tables, ties, account)?;
    add_own(tables, &mut nodes, account)?;
    Ok(nodes)
}

// Adds the nodes of the grants that stand at some ties.
fn add_each(
    tables: &Tables,
    nodes: &mut Vec<Node>,
    entries: Range<'_, Tie, Vec<GrantId>>,
) -> Result<(), Memory>
    ensures { OnOk result ((at : Node)
        → Contains nodes.new.items at ↔ (Contains nodes.old.items at
        ⊎ IsSeedOfTies tables.now entries.entry at)) }
{
    for (_, nums) in entries {
        add_nodes(tables, nodes, nums.as_slice())?;
    }
    Ok(())
}

// The nodes of the grants that end as the clock goes on to a moment. Only the moments in between at which some grant ends are
// looked at.
fn seeds_of_tick(
    alloc: Global,
    tables: &Tables,
    ties: &Ties,
    moment: u64,
) -> Result<Vec<Node>, Memory>
    requires { IsTiesOf tables.now (tied_in ties.now.entries) }
    ensures { IfOk result (λ nodes. (at : Node)
        → Contains nodes.items at ↔ IsSeedOfTick tables.now moment at) }
{
    let mut nodes = Vec::new(alloc);
    if moment <= tables.moment {
        return Ok(nodes);
    }
    let first = Tie::End(tables.moment + 1);
    add_each(tables, &mut nodes, ties.range(first..=Tie::End(moment)))?;
    Ok(nodes)
}

/// The seeds of an event, by the tables before it and what their grants hang on.
pub fn seeds_of(
    alloc: Global,
    tables: &Tables,
    ties: &Ties,
    event: &Event,
) -> Result<Vec<Node>, Memory>
    requires numbers { HasNumbers tables.now }
    requires ties { IsTiesOf tables.now (tied_in ties.now.entries) }
    ensures { IfOk result (λ nodes. (at : Node)
        → Contains nodes.items at ↔ IsSeedOf tables.now event.now at) }
{
    match event {
        Event::GrainAdded(grain) => one(alloc, Node::User(grain.num, grain.owner)),
        Event::GrantAdded(grant) => one(alloc, node_of(grant.num, grant)),
        Event::Claimed(grant, _) => one(alloc, node_of(grant.num, grant)),
        Event::GrantRevoked(num) => grant_node(alloc, tables, *num),
        Event::TrashedSet(num, _) => seeds_of_grain(alloc, tables, ties, *num),
        Event::AppUpgraded(num, _) => seeds_of_app(alloc, tables, ties, *num),
        Event::AdminSet(num, _) => seeds_of_admin(alloc, tables, ties, *num),
        Event::EnabledSet(num, _) => seeds_of_account(alloc, tables, ties, *num),
        Event::AccountAdded(_)
        | Event::AppAdded(_)
        | Event::SavedAdded(_)
        | Event::SavedDropped(_)
        | Event::LoginSet(_, _)
        | Event::RunStarted(_)
        | Event::RunStopped(_)
        | Event::SessionOpened(_)
        | Event::SessionClosed(_)
        | Event::HandleMade(_) => Ok(Vec::new(alloc)),
        Event::Ticked(moment) => seeds_of_tick(alloc, tables, ties, *moment),
    }
}
