//! What is decided of an order, before anything outside is asked.

ghost use Rattle.std.specs.Prelude.{◌≡◌, ◌<◌, ◌-◌, ◌^◌, length, true, false};
ghost use Rattle.desk_base.specs.Terms.{IsOne, IsSolutionOf, IsWellFormed};
ghost use Rattle.desk_base.specs.Outcomes.{IsCarried};
ghost use Rattle.live_access.specs.Kept.{IsSolvedFor};
ghost use Rattle.desk_orders.specs.Commands as commands;
ghost use Rattle.desk_orders.specs.Commands.{IsStated};
ghost use Rattle.desk_orders.specs.Deciding.{Decides, IsDraft, FitsIfDecided};
ghost use Rattle.desk_orders.specs.Orders.{RowBy, RowOf};

use crate::order::{Command, Order};
use account_desk::{
    add_account, add_app, new_grain, renew_login, set_admin, set_enabled, trash, untrash,
    upgrade_app,
};
use collections::collect;
use desk_base::{Answer, Draft, Outcome, Stop, has_room};
use least_access::Solved;
use live_access::Solution;
use saved_refs::{choose, claim, drop_saved, restore, save};
use session_desk::{close_session, open_session, start_run, stop_run};
use share_desk::{child, make_token, redeem, revoke, share};
use share_graph::{Caller, Event, Kind, Made, Refusal, State};
use std::alloc::Global;

/// What is decided of an order, before anything outside is asked.
#[derive(Drop)]
pub enum Decision {
    Refused(Refusal),
    /// Things are as it asks.
    Same(Made),
    /// A change that the digest of a secret completes, which is to be drawn.
    Draft(Draft),
    Change(Event, Made),
    Memory,
}

// What its desk answers to a command that draws a secret.
#[tactic(auto, using(desk_base::proofs::Stopped::loosely))]
fn carry_drawing(
    alloc: Global,
    state: &State,
    solved: &Solved,
    found: Option<bool>,
    caller: &Caller,
    command: &Command,
) -> Answer
    requires formed { IsWellFormed state.now }
    requires few { length state.now.sessions < 2 ^ 32 - 1 }
    requires solution { IsSolutionOf state.now.tables solved.now }
    requires stated { IsStated caller.now command.now }
    requires draws { commands.draws command.now ≡ true }
    ensures { IsCarried (RowBy state.now found caller.now command.now) result }
{
    match command {
        Command::AddAccount(handle, name) => add_account(state, caller, handle, name),
        Command::RenewLogin(account) => renew_login(state, caller, *account),
        Command::MakeToken {
            grain,
            for_sharing: link,
            assignment: by,
            needs,
            expires,
        } => make_token(
            alloc,
            state,
            solved,
            caller,
            *grain,
            *link,
            by,
            needs.as_slice(),
            *expires,
        ),
        Command::Child {
            for_sharing,
            assignment: by,
            needs,
            expires,
        } => child(
            alloc,
            state,
            solved,
            caller,
            *for_sharing,
            by,
            needs.as_slice(),
            *expires,
        ),
        Command::StartRun(grain) => start_run(state, solved, caller, *grain),
        Command::OpenSession { grain, tab } => open_session(state, solved, caller, *grain, *tab),
        Command::Choose {
            grain: num,
            offer,
            query,
            assignment: by,
        } => choose(alloc, state, solved, caller, *num, offer, query, by, found),
        Command::Save { handle, label } => save(state, solved, caller, *handle, label),
        _ => unreachable!(),
    }
}

// What its desk answers to a command, which is no question.
#[tactic(auto, using(desk_base::proofs::Stopped::loosely))]
fn carry(
    alloc: Global,
    state: &State,
    solution: &Solution,
    found: Option<bool>,
    caller: &Caller,
    command: &Command,
) -> Answer
    requires formed { IsWellFormed state.now }
    requires few { length state.now.sessions < 2 ^ 32 - 1 }
    requires solved { IsSolvedFor state.now.tables solution.now }
    requires stated { IsStated caller.now command.now }
    requires asks { commands.lists command.now ≡ false }
    ensures { IsCarried (RowBy state.now found caller.now command.now) result }
{
    let solved = solution.solved();
    match command {
        Command::SetAdmin(account, on) => set_admin(state, caller, *account, *on),
        Command::SetEnabled(account, on) => set_enabled(state, caller, *account, *on),
        Command::AddApp(manifest) => add_app(state, caller, manifest),
        Command::UpgradeApp(app, manifest) => upgrade_app(state, caller, *app, manifest),
        Command::NewGrain(app, title) => new_grain(state, caller, *app, title),
        Command::Trash(grain) => trash(state, caller, *grain),
        Command::Untrash(grain) => untrash(state, caller, *grain),
        Command::Share {
            grain,
            to,
            assignment: by,
            needs,
            expires,
        } => share(
            alloc,
            state,
            solved,
            caller,
            *grain,
            *to,
            by,
            needs.as_slice(),
            *expires,
        ),
        Command::Redeem(token) => redeem(alloc, state, solved, caller, token),
        Command::Revoke(grant) => revoke(state, caller, *grant),
        Command::StopRun(grain) => stop_run(state, caller, *grain),
        Command::CloseSession(session) => close_session(state, solved, caller, *session),
        Command::Options(_, _) | Command::Access(_) => unreachable!(),
        Command::Preview(_) | Command::Why(_, _) | Command::Missing(_, _) => unreachable!(),
        Command::List(_) => unreachable!(),
        Command::Claim { token, permissions } => {
            claim(alloc, state, solved, caller, token, permissions)
        }
        Command::Restore(token) => restore(state, solved, caller, token),
        Command::DropSaved(token) => drop_saved(state, caller, token),
        Command::Collect {
            collection,
            link,
            member,
        } => collect(alloc, state, solution, caller, *collection, *link, *member),
        _ => carry_drawing(alloc, state, solved, found, caller, command),
    }
}

/// What is decided of an order at that many entries, with what the sites have of the item that it chooses. A change that is decided fits
/// the state.
#[tactic(auto, using(crate::proofs::OfOrders::order_one), unfolding(crate::specs::Orders::RowOf))]
pub fn decide(
    alloc: Global,
    state: &State,
    solution: &Solution,
    entries: u64,
    found: Option<bool>,
    order: &Order,
) -> Decision
    requires formed { IsWellFormed state.now }
    requires few { length state.now.sessions < 2 ^ 32 - 1 }
    requires solved { IsSolvedFor state.now.tables solution.now }
    requires asks { commands.lists order.now.command ≡ false }
    ensures decided { Decides entries (RowOf state.now found order.now) result }
    ensures draws { IsDraft result → commands.draws order.now.command ≡ true }
    ensures one { IsOne (RowOf state.now found order.now) }
    ensures fits { FitsIfDecided state.now result }
{
    match carry(alloc, state, solution, found, &order.caller, &order.command) {
        Err(stop) => match stop {
            Stop::Refused(refusal) => Decision::Refused(refusal),
            Stop::Same(made) => Decision::Same(made),
            Stop::Memory => Decision::Memory,
        },
        Ok(outcome) => match has_room(Kind::Entry, entries) {
            Err(refusal) => Decision::Refused(refusal),
            Ok(()) => match outcome {
                Outcome::Change(event, made) => Decision::Change(event, made),
                Outcome::Draft(draft) => Decision::Draft(draft),
            },
        },
    }
}
