//! What an event adds.

ghost use Rattle.std.specs.Prelude.{◌≡◌, ◌↔◌, IfOk, IsTrue};
ghost use Rattle.std.specs.Option.{option_copied};
ghost use Rattle.app_manifest.specs.Upgrade.{GivesNoLess};
ghost use Rattle.share_graph.specs.declared.rows.App as the_app;
ghost use Rattle.share_graph.specs.Rows.{IsApp};
ghost use Rattle.live_access.specs.Adding.{grant_added, OnlyAdds, IsNewOf};

use app_manifest::{Manifest, gives_no_less};
use host_base::{AppId, Memory};
use region_access::{NewGrant, new_grant};
use region_work::Probe;
use share_graph::{Event, Grant};
use std::alloc::Global;

// The grant that an event adds, if it adds one.
fn added_grant(event: &Event) -> Option<&Grant>
    ensures { option_copied result ≡ grant_added event.now }
{
    match event {
        Event::GrantAdded(grant) => Some(grant),
        Event::Claimed(grant, _) => Some(grant),
        _ => None,
    }
}

/// The grant that an event adds, with the nodes that feed it and what it hangs on.
pub fn added_by(alloc: Global, event: &Event) -> Result<Option<NewGrant>, Memory>
    ensures { IfOk result (IsNewOf (grant_added event.now)) }
{
    match added_grant(event) {
        Some(grant) => Ok(Some(new_grant(alloc, grant)?)),
        None => Ok(None),
    }
}

// Whether an application has no manifest yet that gives more than this one.
fn gives_no_less_than_before<V: Probe>(probe: &V, num: AppId, manifest: &Manifest) -> bool
    ensures { IsTrue result ↔ ((app : the_app.App) → IsApp (V.tables probe.now) num app
        → GivesNoLess app.manifest manifest.now) }
{
    match probe.app(num) {
        Some(row) => gives_no_less(&row.manifest, manifest),
        None => true,
    }
}

/// Whether nothing can be lost by an event, by the tables before it.
pub fn only_adds<V: Probe>(probe: &V, event: &Event) -> bool
    ensures { IsTrue result ↔ OnlyAdds (V.tables probe.now) event.now }
{
    match event {
        Event::GrantRevoked(_) | Event::Ticked(_) => false,
        Event::TrashedSet(_, on) => !*on,
        Event::AdminSet(_, on) | Event::EnabledSet(_, on) => *on,
        Event::AppUpgraded(num, manifest) => gives_no_less_than_before(probe, *num, manifest),
        _ => true,
    }
}
