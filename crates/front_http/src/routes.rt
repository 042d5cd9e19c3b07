//! What a request is for.
ghost use Rattle.std.specs.Prelude.{◌≡◌, ◌≤◌, ◌↔◌, ℕ, [], length, IsTrue, Some, IfSome, OnOk, IfOk, fold};
ghost use Rattle.matchit.specs.Seek.{first};
ghost use Rattle.front_http.specs.Routes.{HasForm, desk_form, grain_form, number_of, IsPost, IsPageAsked, IsUsed, IsAskedAs, IsRouteAt, IsRoute, Session, Api, Grain, Desk};
ghost use Rattle.front_http.specs.Routes.{host_kind as host_kind_of, is_method as is_method_of};
ghost use Rattle.front_http.specs.Tables.{with_route, value_of};
ghost use Rattle.front_http.specs.Numbers.{with_number as renumbered, form_of, kept_number, kind_of};

use crate::number::number_between;
use crate::route::Route;
use crate::target::{path, session_text, use_parts};
use host_base::{Memory, Request, digest_of};
use matchit::{InsertError, Router};
use std::alloc::Global;
use std::marker::Model;

/// How a path is written: as it stands, or with a number between two texts.
#[derive(Clone, Copy)]
pub enum Texts {
    Fixed(&'static str),
    Numbered(&'static str, &'static str),
    Nowhere,
}

// The desk's paths and those of a running grain, as the router reads them.
const DESK_PATHS: [(&str, Route); 34] = [
    ("/accounts", Route::Accounts),
    ("/accounts/{n}/admin", Route::AccountAdmin(0)),
    ("/accounts/{n}/enabled", Route::AccountEnabled(0)),
    ("/accounts/{n}/login", Route::AccountLogin(0)),
    ("/login", Route::Login),
    ("/apps", Route::Apps),
    ("/apps/{n}/upgrade", Route::AppUpgrade(0)),
    ("/grains", Route::Grains),
    ("/grains/{n}/trash", Route::GrainTrash(0)),
    ("/grains/{n}/untrash", Route::GrainUntrash(0)),
    ("/grains/{n}/share", Route::GrainShare(0)),
    ("/grains/{n}/link", Route::GrainLink(0)),
    ("/grains/{n}/token", Route::GrainToken(0)),
    ("/grains/{n}/open", Route::GrainOpen(0)),
    ("/grains/{n}/wake", Route::GrainWake(0)),
    ("/grains/{n}/stop", Route::GrainStop(0)),
    ("/grains/{n}/query", Route::GrainQuery(0)),
    ("/grains/{n}/choose", Route::GrainChoose(0)),
    ("/grains/{n}/access", Route::GrainAccess(0)),
    ("/grains/{n}/why", Route::GrainWhy(0)),
    ("/grains/{n}/missing", Route::GrainMissing(0)),
    ("/grains/{n}/collect", Route::GrainCollect(0)),
    ("/grains/{n}/shares", Route::GrainShares(0)),
    ("/me", Route::Me),
    ("/mine", Route::Mine),
    ("/accounts/list", Route::AccountsList),
    ("/apps/list", Route::AppsList),
    ("/redeem", Route::Redeem),
    ("/grants/{n}/revoke", Route::GrantRevoke(0)),
    ("/grants/{n}/preview", Route::GrantPreview(0)),
    ("/sessions/{n}/close", Route::SessionClose(0)),
    ("/child", Route::Child),
    ("/open", Route::Open),
    ("/wake", Route::Wake),
];

const GRAIN_PATHS: [(&str, Route); 4] = [
    ("/claim", Route::Claim),
    ("/save", Route::Save),
    ("/restore", Route::Restore),
    ("/drop", Route::Drop),
];

/// How the desk's paths are written.
fn desk_texts(route: Route) -> Texts
    ensures { form_of result ≡ desk_form route }
{
    match route {
        Route::Accounts => Texts::Fixed("/accounts"),
        Route::AccountAdmin(_) => Texts::Numbered("/accounts/", "/admin"),
        Route::AccountEnabled(_) => Texts::Numbered("/accounts/", "/enabled"),
        Route::AccountLogin(_) => Texts::Numbered("/accounts/", "/login"),
        Route::Login => Texts::Fixed("/login"),
        Route::Apps => Texts::Fixed("/apps"),
        Route::AppUpgrade(_) => Texts::Numbered("/apps/", "/upgrade"),
        Route::Grains => Texts::Fixed("/grains"),
        Route::GrainTrash(_) => Texts::Numbered("/grains/", "/trash"),
        Route::GrainUntrash(_) => Texts::Numbered("/grains/", "/untrash"),
        Route::GrainShare(_) => Texts::Numbered("/grains/", "/share"),
        Route::GrainLink(_) => Texts::Numbered("/grains/", "/link"),
        Route::GrainToken(_) => Texts::Numbered("/grains/", "/token"),
        Route::GrainOpen(_) => Texts::Numbered("/grains/", "/open"),
        Route::GrainWake(_) => Texts::Numbered("/grains/", "/wake"),
        Route::GrainStop(_) => Texts::Numbered("/grains/", "/stop"),
        Route::GrainQuery(_) => Texts::Numbered("/grains/", "/query"),
        Route::GrainChoose(_) => Texts::Numbered("/grains/", "/choose"),
        Route::GrainAccess(_) => Texts::Numbered("/grains/", "/access"),
        Route::GrainWhy(_) => Texts::Numbered("/grains/", "/why"),
        Route::GrainMissing(_) => Texts::Numbered("/grains/", "/missing"),
        Route::GrainCollect(_) => Texts::Numbered("/grains/", "/collect"),
        Route::GrainShares(_) => Texts::Numbered("/grains/", "/shares"),
        Route::Me => Texts::Fixed("/me"),
        Route::Mine => Texts::Fixed("/mine"),
        Route::AccountsList => Texts::Fixed("/accounts/list"),
        Route::AppsList => Texts::Fixed("/apps/list"),
        Route::Redeem => Texts::Fixed("/redeem"),
        Route::GrantRevoke(_) => Texts::Numbered("/grants/", "/revoke"),
        Route::GrantPreview(_) => Texts::Numbered("/grants/", "/preview"),
        Route::SessionClose(_) => Texts::Numbered("/sessions/", "/close"),
        Route::Child => Texts::Fixed("/child"),
        Route::Open => Texts::Fixed("/open"),
        Route::Wake => Texts::Fixed("/wake"),
        Route::Session(_) | Route::Api | Route::Use(_) | Route::Page => Texts::Nowhere,
        Route::Claim | Route::Save | Route::Restore | Route::Drop => Texts::Nowhere,
    }
}

/// How a running grain's paths are written.
fn grain_texts(route: Route) -> Texts
    ensures { form_of result ≡ grain_form route }
{
    match route {
        Route::Claim => Texts::Fixed("/claim"),
        Route::Save => Texts::Fixed("/save"),
        Route::Restore => Texts::Fixed("/restore"),
        Route::Drop => Texts::Fixed("/drop"),
        _ => Texts::Nowhere,
    }
}

// The route with another number.
fn with_number(route: Route, number: u32) -> Route
    ensures { result ≡ renumbered route number }
{
    match route {
        Route::AccountAdmin(_) => Route::AccountAdmin(number),
        Route::AccountEnabled(_) => Route::AccountEnabled(number),
        Route::AccountLogin(_) => Route::AccountLogin(number),
        Route::AppUpgrade(_) => Route::AppUpgrade(number),
        Route::GrainTrash(_) => Route::GrainTrash(number),
        Route::GrainUntrash(_) => Route::GrainUntrash(number),
        Route::GrainShare(_) => Route::GrainShare(number),
        Route::GrainLink(_) => Route::GrainLink(number),
        Route::GrainToken(_) => Route::GrainToken(number),
        Route::GrainOpen(_) => Route::GrainOpen(number),
        Route::GrainWake(_) => Route::GrainWake(number),
        Route::GrainStop(_) => Route::GrainStop(number),
        Route::GrainQuery(_) => Route::GrainQuery(number),
        Route::GrainChoose(_) => Route::GrainChoose(number),
        Route::GrainAccess(_) => Route::GrainAccess(number),
        Route::GrainWhy(_) => Route::GrainWhy(number),
        Route::GrainMissing(_) => Route::GrainMissing(number),
        Route::GrainCollect(_) => Route::GrainCollect(number),
        Route::GrainShares(_) => Route::GrainShares(number),
        Route::GrantRevoke(_) => Route::GrantRevoke(number),
        Route::GrantPreview(_) => Route::GrantPreview(number),
        Route::SessionClose(_) => Route::SessionClose(number),
        Route::Use(_) => Route::Use(number),
        _ => route,
    }
}

// The route with the number of a path, where the path is written so.
fn fit(route: Route, texts: Texts, path: &[u8]) -> Option<Route>
    ensures found { IfSome result (λ found. (n : ℕ) × HasForm (form_of texts) n path.now
        × (found ≡ renumbered route n)) }
    ensures whole { (n : ℕ) → HasForm (form_of texts) n path.now
        → result ≡ Some (renumbered route (kept_number (form_of texts) n)) }
{
    match texts {
        Texts::Fixed(text) => {
            if path == text.as_bytes() {
                Some(with_number(route, 0))
            } else {
                None
            }
        }
        Texts::Numbered(before, after) => {
            match number_between(path, before.as_bytes(), after.as_bytes()) {
                Some(number) => Some(with_number(route, number)),
                None => None,
            }
        }
        Texts::Nowhere => None,
    }
}

fn add(router: &mut Router<Route>, text: &str, route: Route) -> Result<(), InsertError>
    ensures { OnOk result (router.new ≡ with_route router.old text.now route) }
{
    router.insert(text, route)
}

#[tactic(auto, using(std::proofs::lemmas::List::Sums::fold_more))]
fn router_of(alloc: Global, paths: &[(&str, Route)]) -> Result<Router<Route>, Memory>
    ensures { IfOk result (λ router. router ≡ fold (λ rows e. with_route rows e.0.now e.1) [] paths.now) }
{
    let mut router = Router::new(alloc);
    for (text, route) in paths {
        if add(&mut router, text, *route).is_err() {
            return Err(Memory);
        }
    }
    Ok(router)
}

// The route that a router has for a path, whatever the number of the path is.
fn find(router: &Router<Route>, path: &str) -> Option<Route>
    ensures { result ≡ value_of (first router.now path.now) }
{
    match router.at(path) {
        Ok(found) => Some(*found.value),
        Err(_) => None,
    }
}

/// The tables of routes.
pub struct Routes {
    desk: Router<Route>,
    grain: Router<Route>,
}

// Written by hand: a proof then has one call wherever one is let go.
impl Drop for Routes {
    fn drop(self) {
        let Routes { desk: _, grain: _ } = self;
    }
}

impl Model for Routes {
    ghost use Rattle.std.specs.Prelude.{◌≡◌};
    ghost use Rattle.front_http.specs.Tables.{desk_rows, grain_rows};

    ghost Value = { Unit {0} };

    ghost view = { λ routes. tt };

    ghost invariant = { λ routes. (routes.desk ≡ desk_rows) × (routes.grain ≡ grain_rows) };
}

impl Routes {
    /// The tables of the desk and of running grains.
    #[tactic(auto, unfolding(crate::specs::Tables::desk_rows, crate::specs::Tables::grain_rows))]
    pub fn new(alloc: Global) -> Result<Self, Memory> {
        let desk = router_of(alloc, &DESK_PATHS)?;
        let grain = router_of(alloc, &GRAIN_PATHS)?;
        Ok(Routes { desk, grain })
    }

    // A path of the desk.
    fn desk_route(&self, path: &str) -> Option<Route>
        ensures found { IfSome result (λ found. HasForm (desk_form found) (number_of found) path.now) }
        ensures whole { (found : Route) → HasForm (desk_form found) (number_of found) path.now
            → result ≡ Some found }
    {
        let route = find(&self.desk, path)?;
        fit(route, desk_texts(route), path.as_bytes())
    }

    // A path of a running grain, but for those of its handles.
    fn grain_route(&self, path: &str) -> Option<Route>
        ensures found { IfSome result (λ found. HasForm (grain_form found) (number_of found) path.now) }
        ensures whole { (found : Route) → HasForm (grain_form found) (number_of found) path.now
            → result ≡ Some found }
    {
        let route = find(&self.grain, path)?;
        fit(route, grain_texts(route), path.as_bytes())
    }

    // A request to a path of the desk.
    fn at_desk(&self, request: &Request) -> Option<Route>
        ensures found { IfSome result (λ found. IsPost desk_form request.now found) }
        ensures whole { (found : Route) → IsPost desk_form request.now found → result ≡ Some found }
    {
        if request.method.as_str() != "POST" {
            return None;
        }
        self.desk_route(path(request.target.as_str()))
    }

    // A request of a running grain, but for those to its handles.
    fn at_grain(&self, request: &Request) -> Option<Route>
        ensures found { IfSome result (λ found. IsPost grain_form request.now found) }
        ensures whole { (found : Route) → IsPost grain_form request.now found → result ≡ Some found }
    {
        if request.method.as_str() != "POST" {
            return None;
        }
        self.grain_route(path(request.target.as_str()))
    }

    // A request to the desk.
    fn of_desk(&self, request: &Request) -> Option<Route>
        ensures found { IfSome result (λ found. IsRouteAt Desk request.now found) }
        ensures whole { (found : Route) → IsRouteAt Desk request.now found → result ≡ Some found }
    {
        if asks_page(request) {
            return Some(Route::Page);
        }
        self.at_desk(request)
    }

    // A request of a running grain.
    fn of_grain(&self, request: &Request) -> Option<Route>
        ensures found { IfSome result (λ found. IsRouteAt Grain request.now found) }
        ensures whole { (found : Route) → IsRouteAt Grain request.now found → result ≡ Some found }
    {
        match used_handle(request) {
            Some(number) => Some(Route::Use(number)),
            None => self.at_grain(request),
        }
    }

    /// What a request is for, or none. It takes no memory.
    pub fn route(&self, request: &Request) -> Option<Route>
        ensures found { IfSome result (λ found. IsRoute request.now found) }
        ensures whole { (found : Route) → IsRoute request.now found → result ≡ Some found }
    {
        match host_kind(request.host.as_slice()) {
            HostKind::Session => session_route(request),
            HostKind::Api => api_route(request),
            HostKind::Grain => self.of_grain(request),
            HostKind::Desk => self.of_desk(request),
        }
    }
}

/// Which host a request is for.
#[derive(Clone, Copy)]
pub enum HostKind {
    Session,
    Api,
    Grain,
    Desk,
}

fn host_kind(host: &[u8]) -> HostKind
    ensures kind { kind_of result ≡ host_kind_of host.now }
    ensures long { result ≡ HostKind.Session → 3 ≤ length host.now }
{
    if host.starts_with(b"ui-") {
        HostKind::Session
    } else if host.starts_with(b"api.") {
        HostKind::Api
    } else if host.starts_with(b"grain.") {
        HostKind::Grain
    } else {
        HostKind::Desk
    }
}

fn is_method(method: &str) -> bool
    ensures { result ≡ is_method_of method.now }
{
    method == "GET"
        || method == "HEAD"
        || method == "POST"
        || method == "PUT"
        || method == "PATCH"
        || method == "DELETE"
        || method == "OPTIONS"
}

// Whether any path from the root is asked for by a method that is let through.
fn is_asked(request: &Request) -> bool
    ensures { IsTrue result ↔ IsAskedAs request.now }
{
    is_method(request.method.as_str()) && request.target.as_str().as_bytes().starts_with(b"/")
}

// Whether the desk's page is asked for.
fn asks_page(request: &Request) -> bool
    ensures { IsTrue result ↔ IsPageAsked request.now }
{
    let method = request.method.as_str();
    (method == "GET" || method == "HEAD") && path(request.target.as_str()) == "/"
}

// The handle that a request of a running grain goes through.
fn used_handle(request: &Request) -> Option<u32>
    ensures found { IfSome result (λ n. IsUsed request.now n) }
    ensures whole { (n : ℕ) → IsUsed request.now n → result ≡ Some n }
{
    if !is_method(request.method.as_str()) {
        return None;
    }
    match use_parts(request.target.as_str()) {
        Some((number, _)) => Some(number),
        None => None,
    }
}

fn session_route(request: &Request) -> Option<Route>
    requires { 3 ≤ length request.now.host }
    ensures found { IfSome result (λ found. IsRouteAt Session request.now found) }
    ensures whole { (found : Route) → IsRouteAt Session request.now found → result ≡ Some found }
{
    if is_asked(request) {
        Some(Route::Session(digest_of(session_text(request.host.as_slice()))))
    } else {
        None
    }
}

fn api_route(request: &Request) -> Option<Route>
    ensures found { IfSome result (λ found. IsRouteAt Api request.now found) }
    ensures whole { (found : Route) → IsRouteAt Api request.now found → result ≡ Some found }
{
    if is_asked(request) {
        Some(Route::Api)
    } else {
        None
    }
}
