//! New accounts.

ghost use Rattle.std.specs.Prelude.{◌≡◌, MatchResult, true};
ghost use Rattle.desk_base.specs.Terms.{HasHandle, is_handle, IsNoneOf, IsOne, IsWellFormed};
ghost use Rattle.desk_base.specs.Fitting.{RowFits};
ghost use Rattle.desk_base.specs.Outcomes.{Checks, IsCarried};
ghost use Rattle.account_desk.specs.Commands.{AddAccount, account_step};
ghost use Rattle.account_desk.specs.Rows.{IsTaken};

use desk_base::{Answer, BLANK, Draft, NOTHING, Outcome, Stop, caller_admin, has_room};
use host_base::AccountId;
use plain_data::Name;
use share_graph::{Account, Caller, Event, Kind, Made, Refusal, State, Tables, by_handle};

// Whether no account has the handle.
fn is_free_handle(tables: &Tables, handle: &Name) -> Result<(), Refusal>
    ensures { MatchResult result (λ _. IsNoneOf tables.now.accounts (HasHandle handle.now))
        (IsTaken tables.now handle.now) }
{
    match by_handle(tables, handle) {
        None => Ok(()),
        Some(account) => Err(Refusal::HandleTaken(account.num)),
    }
}

// The checks of `add_account`.
fn check_add_account(state: &State, caller: &Caller, handle: &Name, name: &Name) -> Result<(), Stop>
    ensures { Checks (AddAccount state.now caller.now handle.now name.now)
        (λ _. account_step state.now.tables handle.now name.now) result }
{
    caller_admin(state, caller)?;
    is_free_handle(&state.tables, handle)?;
    has_room(Kind::Account, state.tables.accounts.as_slice().len() as u64)?;
    Ok(())
}

/// Adds an account, whose login is drawn; it is enabled and no admin. The reply shows its number.
pub fn add_account(state: &State, caller: &Caller, handle: &Name, name: &Name) -> Answer
    requires formed { IsWellFormed state.now }
    requires handle { is_handle handle.now ≡ true }
    ensures row { IsCarried (AddAccount state.now caller.now handle.now name.now) result }
    ensures one { IsOne (AddAccount state.now caller.now handle.now name.now) }
    ensures fits { RowFits state.now true (AddAccount state.now caller.now handle.now name.now) }
{
    check_add_account(state, caller, handle, name)?;
    let num = state.tables.accounts.as_slice().len() as u32 + 1;
    let account = Account {
        num: AccountId(num),
        handle: handle.clone()?,
        name: name.clone()?,
        login: BLANK,
        admin: false,
        enabled: true,
    };
    let made = Made {
        account: Some(num),
        ..NOTHING
    };
    let event = Event::AccountAdded(account);
    Ok(Outcome::Draft(Draft { event, made }))
}
