//! What grants hang on beside nodes.

ghost use Rattle.std.specs.Prelude.{◌≡◌, ◌⊎◌, ◌↔◌, Contains, OnOk, IfOk, option_map};
ghost use Rattle.share_graph.specs.Coherent.{HasNumbers};
ghost use Rattle.region_access.specs.declared.tie.Tie.{Tie};
ghost use Rattle.region_access.specs.Ties.{IsTied, IsTiesOf, IsAskedBy, tie_of as the_tie_of, tied_in};

use crate::adding_all::add_edges;
use crate::index::Ties;
use crate::pushing::push_some;
use crate::tie::Tie;
use host_base::{GrantId, Memory};
use share_graph::{Grant, Need, Tables};
use std::alloc::Global;
use std::collections::BTreeMap;

// What a need has its grant hang on.
fn tie_of(need: &Need) -> Option<Tie>
    ensures { result ≡ the_tie_of need.now }
{
    match *need {
        Need::UserIsAdmin(account) => Some(Tie::Admin(account)),
        Need::TokenValid(_) | Need::PermissionsHeld { .. } => None,
    }
}

// What an expiry has its grant hang on.
fn end_of(expires: Option<u64>) -> Option<Tie>
    ensures { result ≡ option_map (λ end. Tie.End end) expires }
{
    match expires {
        Some(end) => Some(Tie::End(end)),
        None => None,
    }
}

// Adds what needs have their grant hang on.
fn add_asked(ties: &mut Vec<Tie>, needs: &[Need]) -> Result<(), Memory>
    ensures { OnOk result ((on : Tie) → Contains ties.new.items on ↔ (Contains ties.old.items on
        ⊎ IsAskedBy needs.now on)) }
{
    for need in needs {
        push_some(ties, tie_of(need))?;
    }
    Ok(())
}

/// What a grant hangs on.
pub fn ties_of_grant(alloc: Global, grant: &Grant) -> Result<Vec<Tie>, Memory>
    ensures { IfOk result (λ ties. (on : Tie) → Contains ties.items on ↔ IsTied on grant.now) }
{
    let mut ties = Vec::new(alloc);
    push_some(&mut ties, Some(Tie::Grain(grant.grain)))?;
    push_some(&mut ties, end_of(grant.expires))?;
    add_asked(&mut ties, grant.needs.as_slice())?;
    Ok(ties)
}

/// For each grain the grants on it, for each account the grants that need it to be an admin, and for each moment the grants that
/// end then.
pub fn ties_of(alloc: Global, tables: &Tables) -> Result<Ties, Memory>
    requires { HasNumbers tables.now }
    ensures { IfOk result (λ ties. IsTiesOf tables.now (tied_in ties.entries)) }
{
    let mut ties = BTreeMap::new(alloc);
    for (place, grant) in tables.grants.as_slice().iter().enumerate() {
        let hangs_on = ties_of_grant(alloc, grant)?;
        add_edges(
            alloc,
            &mut ties,
            hangs_on.as_slice(),
            GrantId(place as u32 + 1),
        )?;
    }
    Ok(ties)
}

/// The grants that hang on a tie.
pub fn tied_by(ties: &Ties, on: Tie) -> &[GrantId]
    ensures { result.now ≡ tied_in ties.now.entries on }
{
    match ties.get(&on) {
        Some(tied) => tied.as_slice(),
        None => &[],
    }
}
