ghost use Rattle.std.specs.Prelude.{false};
ghost use Rattle.desk_base.specs.Terms.{IsOne, IsSoundManifest, IsWellFormed};
ghost use Rattle.desk_base.specs.Fitting.{RowFits};
ghost use Rattle.desk_base.specs.Outcomes.{IsCarried};
ghost use Rattle.account_desk.specs.Commands.{UpgradeApp};

use app_manifest::{Manifest, upgrade};
use desk_base::{Answer, NOTHING, Outcome, Stop, caller_admin, known_app};
use host_base::AppId;
use share_graph::{Caller, Event, Refusal, State};

// What becomes of an upgrade.
fn carried(state: &State, caller: &Caller, num: AppId, manifest: &Manifest) -> Answer
    ensures { IsCarried (UpgradeApp state.now caller.now num manifest.now) result }
{
    caller_admin(state, caller)?;
    let app = known_app(&state.tables, num)?;
    if app.manifest.is_same(manifest) {
        return Err(Stop::Same(NOTHING));
    }
    match upgrade(&app.manifest, manifest.clone()?) {
        Ok(next) => Ok(Outcome::Change(Event::AppUpgraded(num, next), NOTHING)),
        Err(fault) => Err(Stop::Refused(Refusal::Manifest(fault))),
    }
}

/// Gives an application another manifest, of which a copy is kept: each permission of the old one stands at its position in it, and
/// it has no fewer roles. Versions aren't compared.
pub fn upgrade_app(state: &State, caller: &Caller, num: AppId, manifest: &Manifest) -> Answer
    requires formed { IsWellFormed state.now }
    requires sound { IsSoundManifest manifest.now }
    ensures row { IsCarried (UpgradeApp state.now caller.now num manifest.now) result }
    ensures one { IsOne (UpgradeApp state.now caller.now num manifest.now) }
    ensures fits { RowFits state.now false (UpgradeApp state.now caller.now num manifest.now) }
{
    carried(state, caller, num, manifest)
}
