//! What a request shows, and so how it is answered.
ghost use Rattle.std.specs.Prelude.{◌≡◌, ℕ, List, IfOk};
ghost use Rattle.host_base.specs.declared.key.Key.TheVariants as key;
ghost use Rattle.front_http.specs.Routes.{IsRoute, IsUse};
ghost use Rattle.cloud_serve.specs.Commands.{asked_at};
ghost use Rattle.cloud_serve.specs.Routes.{IsAsked, IsUsing, Needs, Shows, ShowsAt};
ghost use Rattle.cloud_serve.specs.declared.showing.Showing.TheVariants as shows;

use crate::asking::asked_for;
use crate::sharing::Collecting;
use app_manifest::ManifestFault;
use front_http::{Route, Routes, use_target};
use host_base::{Digest, Key, Memory, Request};
use hub_core::Order;
use plain_data::Text;
use std::alloc::Global;

/// What a request shows.
#[derive(Drop)]
pub enum Showing {
    /// It asks for nothing that is there.
    NoRoute,
    /// It asks for the desk's page.
    Page,
    /// It has no credential, and needs one.
    NoCredential,
    /// The field of that number in its body isn't as it should be, or at 0 the body is no object.
    BadBody(u8),
    /// Its body is a manifest that has this fault.
    BadManifest(ManifestFault),
    /// It shows a key, and is answered by the verdict on it.
    Keyed(Key),
    /// It shows the key of a handle, and is answered by the verdict on it; this is the target that it is passed on with.
    Used(Key, Text),
    /// It wants this of the desk.
    Wants(Order),
    /// It wants a grain opened: the first order starts a run of it, where none is live, and the second opens a session.
    Opens(Order, Order),
    /// It wants the shares of all members of a collection.
    Collects(Collecting),
}

fn credential(bearer: &Option<Digest>) -> Showing
    ensures { Needs bearer.now result (λ who. result ≡ shows.Keyed (key.Bearer who)) }
{
    match bearer {
        Some(digest) => Showing::Keyed(Key::Bearer(*digest)),
        None => Showing::NoCredential,
    }
}

// What is shown on a route of the desk or of a running grain.
fn at_desk(
    alloc: Global,
    route: Route,
    bearer: &Option<Digest>,
    body: &[u8],
) -> Result<Showing, Memory>
    ensures { IfOk result (λ shown.
        Needs bearer.now shown (λ who. IsAsked (asked_at who body.now route) shown)) }
{
    match bearer {
        Some(digest) => asked_for(alloc, route, *digest, body),
        None => Ok(Showing::NoCredential),
    }
}

// What is shown by a request of a run through the handle of a number.
fn used(alloc: Global, num: u32, bearer: &Option<Digest>, target: &str) -> Result<Showing, Memory>
    requires { (m : ℕ) × (rest : List ℕ) × IsUse m target.now rest }
    ensures { IfOk result (λ shown. Needs bearer.now shown (λ who. IsUsing num target.now who shown)) }
{
    let Some(digest) = bearer else {
        return Ok(Showing::NoCredential);
    };
    let found = use_target(alloc, target)?;
    match found {
        Some(passed) => Ok(Showing::Used(Key::Handle(*digest, num), passed)),
        None => unreachable!(),
    }
}

// What is shown on a route.
fn showing_at(alloc: Global, route: Route, request: &Request) -> Result<Showing, Memory>
    requires { IsRoute request.now route }
    ensures { IfOk result (ShowsAt route request.now) }
{
    let bearer = &request.bearer;
    match route {
        Route::Page => Ok(Showing::Page),
        Route::Session(digest) => Ok(Showing::Keyed(Key::Session(digest))),
        Route::Api => Ok(credential(bearer)),
        Route::Use(num) => used(alloc, num, bearer, request.target.as_str()),
        _ => at_desk(alloc, route, bearer, request.body.as_slice()),
    }
}

/// What a request shows.
pub fn find_showing(alloc: Global, routes: &Routes, request: &Request) -> Result<Showing, Memory>
    ensures { IfOk result (Shows request.now) }
{
    match routes.route(request) {
        Some(found) => showing_at(alloc, found, request),
        None => Ok(Showing::NoRoute),
    }
}
