//! New logins.

ghost use Rattle.std.specs.Prelude.{true};
ghost use Rattle.desk_base.specs.Terms.{IsOne, IsWellFormed};
ghost use Rattle.desk_base.specs.Fitting.{RowFits};
ghost use Rattle.desk_base.specs.Outcomes.{Checks, IsCarriedExactly};
ghost use Rattle.account_desk.specs.Commands.{RenewLogin, login_step};

use desk_base::{
    Answer, BLANK, Draft, NOTHING, Outcome, Stop, caller_account, caller_admin, known_account,
};
use host_base::AccountId;
use share_graph::{Caller, Event, Made, State};

// The checks of `renew_login`: the account whose login it is.
fn check_renew_login(
    state: &State,
    caller: &Caller,
    num: Option<AccountId>,
) -> Result<AccountId, Stop>
    ensures { Checks (RenewLogin state.now caller.now num) login_step result }
{
    match num {
        None => Ok(caller_account(state, caller)?.num),
        Some(num) => {
            caller_admin(state, caller)?;
            known_account(&state.tables, num)?;
            Ok(num)
        }
    }
}

/// Gives an account another login, which is drawn: its own the caller's, and any other an admin. What the account has open stays
/// open. The reply shows the account's number.
#[tactic(auto, using(crate::proofs::OneRows::renew_login_one, crate::proofs::FitRows::renew_login_fits))]
pub fn renew_login(state: &State, caller: &Caller, num: Option<AccountId>) -> Answer
    requires { IsWellFormed state.now }
    ensures row { IsCarriedExactly (RenewLogin state.now caller.now num) result }
    ensures one { IsOne (RenewLogin state.now caller.now num) }
    ensures fits { RowFits state.now true (RenewLogin state.now caller.now num) }
{
    let num = check_renew_login(state, caller, num)?;
    let made = Made {
        account: Some(num.0),
        ..NOTHING
    };
    let event = Event::LoginSet(num, BLANK);
    Ok(Outcome::Draft(Draft { event, made }))
}
