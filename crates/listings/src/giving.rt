//! The grants on a grain.

ghost use Rattle.std.specs.Prelude.{◌↔◌, ◌<◌, ℕ, Contains, IfOk, IsTrue};
ghost use Rattle.std.specs.List.{AllZip};
ghost use Rattle.desk_base.specs.Outcomes.{IsAnswered};
ghost use Rattle.desk_base.specs.Terms.{IsOne, IsWellFormed};
ghost use Rattle.live_access.specs.Kept.{IsSolvedFor};
ghost use Rattle.region_access.specs.Ties.{IsTiesOf, tied_in};
ghost use Rattle.share_graph.specs.Coherent.{IsCoherent};
ghost use Rattle.share_graph.specs.Known.{HasGrant, KnowsTarget};
ghost use Rattle.listings.specs.Choosing.{AreBehind};
ghost use Rattle.listings.specs.Commands.{AsksOf};
ghost use Rattle.listings.specs.Lines.{AreGrantLines, Gave, IsGivenTo, IsGrantLine, IsOnGrain, MaySee};
ghost use Rattle.listings.specs.Terms.{IsGrain};

use crate::line::{GivenTo, GrantLine, GrantLines};
use crate::page::page_of;
use desk_base::{caller_account, known_grain};
use host_base::{AccountId, GrainId, GrantId, Memory};
use live_access::Solution;
use plain_data::List;
use region_access::{Tie, Ties, tied_by};
use report_desk::passing_of;
use share_graph::{
    Caller, DeskFault, Giver, Grain, State, Tables, Target, account as find_account,
    grant as find_grant,
};
use std::alloc::Global;

// Whether an account gave a grant that is there.
fn gave(tables: &Tables, account: AccountId, num: GrantId) -> bool
    requires { HasGrant tables.now num }
    ensures { IsTrue result ↔ Gave tables.now account num }
{
    let Some(grant) = find_grant(tables, num) else {
        unreachable!()
    };
    match grant.giver {
        Giver::Account(giver) => giver == account,
        Giver::Grant(_) | Giver::Site { .. } => false,
    }
}

// Whether an account may see a grant on a grain, behind a number.
fn is_seen(
    tables: &Tables,
    grain: &Grain,
    num: GrainId,
    account: AccountId,
    after: u32,
    grant: GrantId,
) -> bool
    requires grain { IsGrain tables.now num grain.now }
    requires there { IsOnGrain tables.now num grant.0 }
    ensures { IsTrue result ↔ ((after < grant.0) × MaySee tables.now account num grant.0) }
{
    grant.0 > after && (grain.owner == account || gave(tables, account, grant))
}

// The numbers behind one of the grants on a grain that an account may see. Only the grain's own grants are looked at.
fn seen_behind(
    alloc: Global,
    tables: &Tables,
    ties: &Ties,
    grain: &Grain,
    num: GrainId,
    account: AccountId,
    after: u32,
) -> Result<Vec<u32>, Memory>
    requires ties { IsTiesOf tables.now (tied_in ties.now.entries) }
    requires grain { IsGrain tables.now num grain.now }
    ensures { IfOk result (λ numbers. AreBehind (MaySee tables.now account num) after numbers.items) }
{
    let mut numbers = Vec::new(alloc);
    for grant in tied_by(ties, Tie::Grain(num)) {
        if is_seen(tables, grain, num, account, after, *grant) {
            numbers.push(grant.0)?;
        }
    }
    Ok(numbers)
}

// Whom a grant goes to, as it is shown.
fn given_to(tables: &Tables, target: Target) -> Result<GivenTo, Memory>
    requires { KnowsTarget tables.now target }
    ensures { IfOk result (IsGivenTo tables.now target) }
{
    match target {
        Target::User(num) => {
            let Some(account) = find_account(tables, num) else {
                unreachable!()
            };
            let handle = account.handle.clone()?;
            Ok(GivenTo::Account(handle))
        }
        Target::Bearer { for_sharing } => Ok(GivenTo::Bearer(for_sharing)),
        Target::Claim(grain) | Target::Grain(grain) => Ok(GivenTo::Grain(grain)),
    }
}

// The line of a grant that is there.
fn line_of(tables: &Tables, num: GrantId) -> Result<GrantLine, Memory>
    requires coherent { IsCoherent tables.now }
    requires there { HasGrant tables.now num }
    ensures { IfOk result (IsGrantLine tables.now num) }
{
    let Some(grant) = find_grant(tables, num) else {
        unreachable!()
    };
    let to = given_to(tables, grant.target)?;
    let passing = passing_of(tables, num)?;
    Ok(GrantLine {
        passing,
        to,
        needs: grant.needs.as_slice().len() as u64,
        expires: grant.expires,
        revoked: grant.revoked,
    })
}

// A line of each grant.
fn lines_of(alloc: Global, tables: &Tables, numbers: &[u32]) -> Result<GrantLines, Memory>
    requires coherent { IsCoherent tables.now }
    requires there { (g : ℕ) → Contains numbers.now g → HasGrant tables.now (record { 0 = g }) }
    ensures { IfOk result (AllZip (λ g. IsGrantLine tables.now (record { 0 = g })) numbers.now) }
{
    let mut lines = Vec::new(alloc);
    for number in numbers {
        lines.push(line_of(tables, GrantId(*number))?)?;
    }
    Ok(List::new(lines))
}

/// The grants on a grain behind a number, by number: a page of those that the caller's account may see, which are all where it owns
/// the grain, and else those that it gave. Only the grain's own grants are looked at.
#[tactic(auto, using(crate::proofs::OneRows::asks_of_one))]
pub(crate) fn given(
    alloc: Global,
    state: &State,
    solution: &Solution,
    caller: &Caller,
    num: GrainId,
    after: GrantId,
) -> Result<GrantLines, DeskFault>
    requires formed { IsWellFormed state.now }
    requires solved { IsSolvedFor state.now.tables solution.now }
    ensures row { IsAnswered (AsksOf state.now caller.now num)
        (AreGrantLines state.now caller.now num after.0) result }
    ensures one { IsOne (AsksOf state.now caller.now num) }
{
    let tables = &state.tables;
    let account = match caller_account(state, caller) {
        Ok(account) => account.num,
        Err(refusal) => return Err(DeskFault::Refused(refusal)),
    };
    let grain = match known_grain(tables, num) {
        Ok(grain) => grain,
        Err(refusal) => return Err(DeskFault::Refused(refusal)),
    };
    let ties = solution.ties();
    let page = page_of(seen_behind(alloc, tables, ties, grain, num, account, after.0)?)?;
    let lines = lines_of(alloc, tables, page.as_slice())?;
    Ok(lines)
}
