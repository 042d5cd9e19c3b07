//! The accounts.

ghost use Rattle.std.specs.Prelude.{◌≡◌, ◌∷◌, [], IfOk};
ghost use Rattle.std.specs.List.{AllZip};
ghost use Rattle.desk_base.specs.Outcomes.{IsAnswered};
ghost use Rattle.desk_base.specs.Terms.{IsOne, IsWellFormed};
ghost use Rattle.listings.specs.Commands.{Asks};
ghost use Rattle.listings.specs.Lines.{AreAccountLines, IsAccountLine, IsOwnLine};

use crate::line::{AccountLine, AccountLines};
use crate::page::rows_behind;
use desk_base::caller_account;
use host_base::{AccountId, Memory};
use plain_data::List;
use share_graph::{Account, Caller, DeskFault, State};
use std::alloc::Global;

// The line of an account.
fn line_of(account: &Account) -> Result<AccountLine, Memory>
    ensures { IfOk result (IsAccountLine account.now) }
{
    let handle = account.handle.clone()?;
    let name = account.name.clone()?;
    Ok(AccountLine {
        account: account.num,
        handle,
        name,
        admin: account.admin,
        enabled: account.enabled,
    })
}

// A line of each account.
fn lines_of(alloc: Global, accounts: &[Account]) -> Result<AccountLines, Memory>
    ensures { IfOk result (AllZip IsAccountLine accounts.now) }
{
    let mut lines = Vec::new(alloc);
    for account in accounts {
        lines.push(line_of(account)?)?;
    }
    Ok(List::new(lines))
}

// The line of one account, alone.
fn line_alone(alloc: Global, account: &Account) -> Result<AccountLines, Memory>
    ensures { IfOk result (AllZip IsAccountLine (account.now ∷ [])) }
{
    let line = line_of(account)?;
    let mut lines = Vec::new(alloc);
    lines.push(line)?;
    Ok(List::new(lines))
}

/// The caller's own account, alone.
#[tactic(auto, using(crate::proofs::OneRows::asks_one))]
pub(crate) fn own(alloc: Global, state: &State, caller: &Caller) -> Result<AccountLines, DeskFault>
    requires formed { IsWellFormed state.now }
    ensures row { IsAnswered (Asks state.now caller.now) (IsOwnLine state.now caller.now) result }
    ensures one { IsOne (Asks state.now caller.now) }
{
    let account = match caller_account(state, caller) {
        Ok(account) => account,
        Err(refusal) => return Err(DeskFault::Refused(refusal)),
    };
    let lines = line_alone(alloc, account)?;
    Ok(lines)
}

/// The accounts behind a number, by number: a page of them, for each account that asks.
#[tactic(auto, using(crate::proofs::OneRows::asks_one))]
pub(crate) fn accounts(
    alloc: Global,
    state: &State,
    caller: &Caller,
    after: AccountId,
) -> Result<AccountLines, DeskFault>
    requires formed { IsWellFormed state.now }
    ensures row { IsAnswered (Asks state.now caller.now) (AreAccountLines state.now.tables after.0) result }
    ensures one { IsOne (Asks state.now caller.now) }
{
    if let Err(refusal) = caller_account(state, caller) {
        return Err(DeskFault::Refused(refusal));
    }
    let page = rows_behind(state.tables.accounts.as_slice(), after.0);
    let lines = lines_of(alloc, page)?;
    Ok(lines)
}
