//! What may be listed, and the page that is told of it.

ghost use Rattle.desk_base.specs.Outcomes.{IsAnswered};
ghost use Rattle.desk_base.specs.Terms.{IsOne, IsWellFormed};
ghost use Rattle.live_access.specs.Kept.{IsSolvedFor};
ghost use Rattle.listings.specs.Asking.{IsPageOf, Lists};

use crate::entering::entered;
use crate::giving::given;
use crate::line::{AccountLines, AppLines, GrainLines, GrantLines};
use crate::of_accounts::{accounts, own};
use crate::of_apps::apps;
use host_base::{AccountId, AppId, GrainId, GrantId};
use live_access::Solution;
use share_graph::{Caller, DeskFault, State};
use std::alloc::Global;

/// What is listed, behind a number.
#[derive(Clone, Copy, Debug, PartialEq, Eq)]
pub enum Subject {
    /// The caller's own account.
    Own,
    /// The accounts.
    Accounts(AccountId),
    /// The applications.
    Apps(AppId),
    /// The grains that the caller's account enters.
    Entered(GrainId),
    /// The grants on a grain that the caller's account may see: all of them where it owns the grain, else those that it
    /// gave.
    Given(GrainId, GrantId),
}

/// A page of a list: the lines behind a number, by number, `PAGE` at the most.
#[derive(Drop)]
pub enum Page {
    Accounts(AccountLines),
    Apps(AppLines),
    Grains(GrainLines),
    Grants(GrantLines),
}

/// A page of what is listed, for each account that asks. Of grains only the account's own nodes are looked at, of grants only those on
/// the grain. Refused where the caller is no enabled account, and where the grain isn't there.
#[tactic(auto, using(crate::proofs::OneRows::lists_one))]
pub fn list(
    alloc: Global,
    state: &State,
    solution: &Solution,
    caller: &Caller,
    subject: Subject,
) -> Result<Page, DeskFault>
    requires formed { IsWellFormed state.now }
    requires solved { IsSolvedFor state.now.tables solution.now }
    ensures row { IsAnswered (Lists state.now caller.now subject) (IsPageOf state.now caller.now subject) result }
    ensures one { IsOne (Lists state.now caller.now subject) }
{
    match subject {
        Subject::Own => own(alloc, state, caller).map(Page::Accounts),
        Subject::Accounts(after) => accounts(alloc, state, caller, after).map(Page::Accounts),
        Subject::Apps(after) => apps(alloc, state, caller, after).map(Page::Apps),
        Subject::Entered(after) => entered(alloc, state, solution, caller, after).map(Page::Grains),
        Subject::Given(grain, after) => {
            given(alloc, state, solution, caller, grain, after).map(Page::Grants)
        }
    }
}
