ghost use Rattle.std.specs.Prelude.{◌≡◌, ◌↔◌, IsTrue, All, None, false};
ghost use Rattle.desk_base.specs.Terms.{IsNoneOf, IsOne, IsWellFormed, State};
ghost use Rattle.desk_base.specs.Fitting.{RowFits};
ghost use Rattle.desk_base.specs.Limits.{limit_of};
ghost use Rattle.desk_base.specs.Outcomes.{IsCarriedExactly};
ghost use Rattle.account_desk.specs.declared.admins.Mark.{Mark};
ghost use Rattle.account_desk.specs.Commands.{SetAdmin, SetEnabled, SetMark};
ghost use Rattle.account_desk.specs.Rows.{has_mark, IsEnabledAdmin, IsOnlyAdmin, LeavesNoAdmin, mark_set};

use desk_base::{Answer, NOTHING, Outcome, Stop, caller_admin, known_account};
use host_base::AccountId;
use share_graph::{Account, Caller, Event, Refusal, State};

// Whether an account is no enabled admin, or the one of that number.
fn is_no_other_admin(account: &Account, num: AccountId) -> bool
    ensures { IsTrue result ↔ IsOnlyAdmin num account.now }
{
    account.num == num || !(account.enabled && account.admin)
}

// Whether no other account is an enabled admin.
fn is_only_admin(accounts: &[Account], num: AccountId) -> bool
    ensures { IsTrue result ↔ All (IsOnlyAdmin num) accounts.now }
{
    accounts
        .iter()
        .all(|account| is_no_other_admin(account, num))
}

// Whether no enabled admin would be left, where there is one so far, once either mark of an account is set.
fn leaves_no_admin(state: &State, num: AccountId, on: bool) -> bool
    requires formed { IsWellFormed state.now }
    requires some { IsNoneOf state.now.tables.accounts IsEnabledAdmin → ⊥ }
    ensures { (mark : Mark) → IsTrue result ↔ LeavesNoAdmin state.now.tables (mark_set mark num on) }
{
    if on {
        return false;
    }
    is_only_admin(state.tables.accounts.as_slice(), num)
}

// A mark of an account.
#[derive(Clone, Copy)]
enum Mark {
    Admin,
    Enabled,
}

impl Mark {
    // Whether an account has the mark.
    fn is_on(self, account: &Account) -> bool
        ensures { result ≡ has_mark self account.now }
    {
        match self {
            Mark::Admin => account.admin,
            Mark::Enabled => account.enabled,
        }
    }

    // The event that sets it, for which there is no limit of rows.
    fn event(self, num: AccountId, on: bool) -> Event
        ensures named { result ≡ mark_set self num on }
        ensures unlimited { (s : State) → limit_of s result ≡ None }
    {
        match self {
            Mark::Admin => Event::AdminSet(num, on),
            Mark::Enabled => Event::EnabledSet(num, on),
        }
    }
}

// Sets a mark of an account, or takes it away.
fn set_mark(state: &State, caller: &Caller, mark: Mark, num: AccountId, on: bool) -> Answer
    requires { IsWellFormed state.now }
    ensures { IsCarriedExactly (SetMark (has_mark mark) (mark_set mark) state.now caller.now num on) result }
{
    caller_admin(state, caller)?;
    let account = known_account(&state.tables, num)?;
    if mark.is_on(account) == on {
        return Err(Stop::Same(NOTHING));
    }
    if leaves_no_admin(state, num, on) {
        return Err(Stop::Refused(Refusal::LastAdmin));
    }
    Ok(Outcome::Change(mark.event(num, on), NOTHING))
}

/// Makes an account an admin, or none. An enabled admin is always left.
pub fn set_admin(state: &State, caller: &Caller, num: AccountId, on: bool) -> Answer
    requires { IsWellFormed state.now }
    ensures row { IsCarriedExactly (SetAdmin state.now caller.now num on) result }
    ensures one { IsOne (SetAdmin state.now caller.now num on) }
    ensures fits { RowFits state.now false (SetAdmin state.now caller.now num on) }
{
    set_mark(state, caller, Mark::Admin, num, on)
}

/// Enables an account, or disables it. An enabled admin is always left.
pub fn set_enabled(state: &State, caller: &Caller, num: AccountId, on: bool) -> Answer
    requires { IsWellFormed state.now }
    ensures row { IsCarriedExactly (SetEnabled state.now caller.now num on) result }
    ensures one { IsOne (SetEnabled state.now caller.now num on) }
    ensures fits { RowFits state.now false (SetEnabled state.now caller.now num on) }
{
    set_mark(state, caller, Mark::Enabled, num, on)
}
