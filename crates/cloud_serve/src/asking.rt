//! What the routes of the desk and of running grains ask for.
ghost use Rattle.std.specs.Prelude.{◌≡◌, IfOk, None, Some, MatchOption, Result};
ghost use Rattle.desk_bodies.specs.declared.fault.BodyFault.{BodyFault};
ghost use Rattle.desk_bodies.specs.Answers.{Answers};
ghost use Rattle.cloud_serve.specs.Commands.{asked_at};
ghost use Rattle.cloud_serve.specs.Routes.{IsAsked};
ghost use Rattle.cloud_serve.specs.declared.showing.Showing.{Showing};

use crate::collecting::{collection, missing};
use crate::commands::{
    admin_mark, enabled_mark, new_account, new_app, new_child, new_grain, new_manifest, new_share,
    new_token, opening, plain, reasons, redemption,
};
use crate::listing::page;
use crate::powerbox::{choice, claim, drop_reference, options, reference, restoration};
use crate::showing::Showing;
use desk_bodies::BodyFault;
use front_http::Route;
use host_base::{AccountId, AppId, Digest, GrainId, GrantId, Memory, SessionId};
use hub_core::Command;
use listings::Subject;
use share_graph::Caller;
use std::alloc::Global;

// What a route and a body ask for, where the route shows no key.
fn stated(
    alloc: Global,
    route: Route,
    who: Digest,
    body: &[u8],
) -> Option<Result<Showing, BodyFault>>
    ensures { MatchOption result (asked_at who body.now route ≡ None) (λ answer.
        (one : Result Showing BodyFault) × (asked_at who body.now route ≡ Some one) × Answers one answer) }
{
    let login = Caller::Login(who);
    let bearer = Caller::Bearer(who);
    match route {
        Route::Accounts => Some(new_account(alloc, who, body)),
        Route::AccountAdmin(num) => Some(admin_mark(alloc, who, AccountId(num), body)),
        Route::AccountEnabled(num) => Some(enabled_mark(alloc, who, AccountId(num), body)),
        Route::AccountLogin(num) => {
            let renewal = Command::RenewLogin(Some(AccountId(num)));
            Some(plain(alloc, login, renewal, body))
        }
        Route::Login => Some(plain(alloc, login, Command::RenewLogin(None), body)),
        Route::Apps => Some(new_app(alloc, who, body)),
        Route::AppUpgrade(num) => Some(new_manifest(alloc, who, AppId(num), body)),
        Route::Grains => Some(new_grain(alloc, who, body)),
        Route::GrainTrash(num) => Some(plain(alloc, login, Command::Trash(GrainId(num)), body)),
        Route::GrainUntrash(num) => Some(plain(alloc, login, Command::Untrash(GrainId(num)), body)),
        Route::GrainShare(num) => Some(new_share(alloc, who, GrainId(num), body)),
        Route::GrainLink(num) => Some(new_token(alloc, who, GrainId(num), true, body)),
        Route::GrainToken(num) => Some(new_token(alloc, who, GrainId(num), false, body)),
        Route::GrainOpen(num) => Some(opening(alloc, login, Some(GrainId(num)), body)),
        Route::GrainWake(num) => Some(plain(
            alloc,
            login,
            Command::StartRun(Some(GrainId(num))),
            body,
        )),
        Route::GrainStop(num) => Some(plain(alloc, login, Command::StopRun(GrainId(num)), body)),
        Route::Redeem => Some(redemption(alloc, who, body)),
        Route::GrantRevoke(num) => Some(plain(alloc, login, Command::Revoke(GrantId(num)), body)),
        Route::SessionClose(num) => Some(plain(
            alloc,
            Caller::Either(who),
            Command::CloseSession(SessionId(num)),
            body,
        )),
        Route::Child => Some(new_child(alloc, who, body)),
        Route::Open => Some(opening(alloc, bearer, None, body)),
        Route::Wake => Some(plain(alloc, bearer, Command::StartRun(None), body)),
        Route::GrainQuery(num) => Some(options(alloc, who, GrainId(num), body)),
        Route::GrainChoose(num) => Some(choice(alloc, who, GrainId(num), body)),
        Route::GrainAccess(num) => Some(plain(alloc, login, Command::Access(GrainId(num)), body)),
        Route::GrainWhy(num) => Some(reasons(alloc, who, GrainId(num), body)),
        Route::GrainMissing(num) => Some(missing(alloc, who, GrainId(num), body)),
        Route::GrainCollect(num) => Some(collection(alloc, who, GrainId(num), body)),
        Route::GrainShares(num) => {
            let subject = Subject::Given(GrainId(num), GrantId(0));
            Some(page(alloc, who, subject, body))
        }
        Route::Me => Some(plain(alloc, login, Command::List(Subject::Own), body)),
        Route::Mine => Some(page(alloc, who, Subject::Entered(GrainId(0)), body)),
        Route::AccountsList => Some(page(alloc, who, Subject::Accounts(AccountId(0)), body)),
        Route::AppsList => Some(page(alloc, who, Subject::Apps(AppId(0)), body)),
        Route::GrantPreview(num) => Some(plain(alloc, login, Command::Preview(GrantId(num)), body)),
        Route::Claim => Some(claim(alloc, who, body)),
        Route::Save => Some(reference(alloc, who, body)),
        Route::Restore => Some(restoration(alloc, who, body)),
        Route::Drop => Some(drop_reference(alloc, who, body)),
        Route::Session(_) | Route::Api | Route::Use(_) | Route::Page => None,
    }
}

// What a body comes to.
fn shown(answer: Result<Showing, BodyFault>) -> Result<Showing, Memory>
    ensures { (asked : Result Showing BodyFault) → Answers asked answer → IfOk result (IsAsked (Some asked)) }
{
    match answer {
        Ok(showing) => Ok(showing),
        Err(fault) => match fault {
            BodyFault::BadBody(number) => Ok(Showing::BadBody(number)),
            BodyFault::Manifest(bad) => Ok(Showing::BadManifest(bad)),
            BodyFault::Memory => Err(Memory),
        },
    }
}

/// What is asked for on a route of the desk or of a running grain with a credential.
pub fn asked_for(alloc: Global, route: Route, who: Digest, body: &[u8]) -> Result<Showing, Memory>
    ensures { IfOk result (IsAsked (asked_at who body.now route)) }
{
    match stated(alloc, route, who, body) {
        Some(answer) => shown(answer),
        None => Ok(Showing::NoRoute),
    }
}
