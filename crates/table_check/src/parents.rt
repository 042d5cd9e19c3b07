ghost use Rattle.std.specs.Prelude.{◌≡◌, ◌↔◌, ◌+◌, IsTrue, All};
ghost use Rattle.share_graph.specs.Parents.{IsUnclaimed, PassesTo, IsChild, GiverFits, NeedFits, HasParent, GiverIsEarlier, NeedIsEarlier, NamesEarlier};

use host_base::GrantId;
use share_graph::{Giver, Grant, Need, Node, Tables, Target, grant as find_grant, is_own_node};

fn is_unclaimed(target: Target) -> bool
    ensures { IsTrue result ↔ IsUnclaimed target }
{
    match target {
        Target::Grain(_) => false,
        Target::Bearer { .. } => true,
        Target::User(_) => true,
        Target::Claim(_) => true,
    }
}

fn passes_to(parent: Target, own: Target) -> bool
    ensures { IsTrue result ↔ PassesTo parent own }
{
    match parent {
        Target::Bearer { .. } => is_unclaimed(own),
        Target::Claim(holder) => own == Target::Grain(holder),
        Target::User(_) => false,
        Target::Grain(_) => false,
    }
}

fn passes_on(parent: &Grant, grant: &Grant) -> bool
    ensures { IsTrue result ↔ ((parent.now.grain ≡ grant.now.grain)
        × PassesTo parent.now.target grant.now.target) }
{
    parent.grain == grant.grain && passes_to(parent.target, grant.target)
}

fn is_child(tables: &Tables, num: GrantId, grant: &Grant) -> bool
    ensures { IsTrue result ↔ IsChild tables.now num grant.now }
{
    match find_grant(tables, num) {
        None => false,
        Some(parent) => passes_on(parent, grant),
    }
}

fn giver_fits(tables: &Tables, giver: Giver, grant: &Grant) -> bool
    ensures { IsTrue result ↔ GiverFits tables.now giver grant.now }
{
    match giver {
        Giver::Account(_) => is_unclaimed(grant.target),
        Giver::Grant(num) => is_child(tables, num, grant),
        Giver::Site { .. } => grant.target == Target::Claim(grant.grain),
    }
}

fn need_fits(tables: &Tables, need: Need) -> bool
    ensures { IsTrue result ↔ NeedFits tables.now need }
{
    match need {
        Need::TokenValid(num) => is_own_node(tables, num),
        Need::PermissionsHeld { holder, .. } => match holder {
            Node::User(_, _) => true,
            Node::Grant(num) => is_own_node(tables, num),
        },
        Need::UserIsAdmin(_) => true,
    }
}

fn needs_fit(tables: &Tables, needs: &[Need]) -> bool
    ensures { IsTrue result ↔ All (NeedFits tables.now) needs.now }
{
    needs.iter().all(|need| need_fits(tables, *need))
}

/// Whether a grant has a giver that it may have, and needs that name nodes.
pub(crate) fn has_parent(tables: &Tables, grant: &Grant) -> bool
    ensures { IsTrue result ↔ HasParent tables.now grant.now }
{
    giver_fits(tables, grant.giver, grant) && needs_fit(tables, grant.needs.as_slice())
}

fn giver_is_earlier(place: usize, giver: Giver) -> bool
    ensures { IsTrue result ↔ GiverIsEarlier (place + 1) giver }
{
    match giver {
        Giver::Grant(parent) => parent.0 as usize <= place,
        Giver::Account(_) => true,
        Giver::Site { .. } => true,
    }
}

fn need_is_earlier(place: usize, need: Need) -> bool
    ensures { IsTrue result ↔ NeedIsEarlier (place + 1) need }
{
    match need {
        Need::TokenValid(named) => named.0 as usize <= place,
        Need::PermissionsHeld { holder, .. } => match holder {
            Node::User(_, _) => true,
            Node::Grant(named) => named.0 as usize <= place,
        },
        Need::UserIsAdmin(_) => true,
    }
}

fn needs_are_earlier(place: usize, needs: &[Need]) -> bool
    ensures { IsTrue result ↔ All (NeedIsEarlier (place + 1)) needs.now }
{
    needs.iter().all(|need| need_is_earlier(place, *need))
}

/// Whether the grants that the grant at a place, from 0, names have smaller numbers.
pub(crate) fn names_earlier(place: usize, grant: &Grant) -> bool
    ensures { IsTrue result ↔ NamesEarlier (place + 1) grant.now }
{
    giver_is_earlier(place, grant.giver) && needs_are_earlier(place, grant.needs.as_slice())
}
