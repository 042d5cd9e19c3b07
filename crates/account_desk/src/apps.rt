ghost use Rattle.desk_base.specs.Terms.{IsOne, IsSoundManifest, IsWellFormed};
ghost use Rattle.std.specs.Prelude.{false};
ghost use Rattle.desk_base.specs.Fitting.{RowFits};
ghost use Rattle.desk_base.specs.Outcomes.{Checks, IsCarried};
ghost use Rattle.account_desk.specs.Commands.{AddApp, app_step};

use app_manifest::Manifest;
use desk_base::{Answer, NOTHING, Outcome, Stop, caller_admin, has_room};
use host_base::AppId;
use share_graph::{App, Caller, Event, Kind, Made, State};

// The checks of `add_app`.
fn check_add_app(state: &State, caller: &Caller, manifest: &Manifest) -> Result<(), Stop>
    ensures { Checks (AddApp state.now caller.now manifest.now)
        (λ _. app_step state.now.tables manifest.now) result }
{
    caller_admin(state, caller)?;
    has_room(Kind::App, state.tables.apps.as_slice().len() as u64)?;
    Ok(())
}

/// Adds an application with a manifest, of which a copy is kept. The reply shows its number.
pub fn add_app(state: &State, caller: &Caller, manifest: &Manifest) -> Answer
    requires formed { IsWellFormed state.now }
    requires sound { IsSoundManifest manifest.now }
    ensures row { IsCarried (AddApp state.now caller.now manifest.now) result }
    ensures one { IsOne (AddApp state.now caller.now manifest.now) }
    ensures fits { RowFits state.now false (AddApp state.now caller.now manifest.now) }
{
    check_add_app(state, caller, manifest)?;
    let num = state.tables.apps.as_slice().len() as u32 + 1;
    let app = App {
        num: AppId(num),
        manifest: manifest.clone()?,
    };
    let made = Made {
        app: Some(num),
        ..NOTHING
    };
    Ok(Outcome::Change(Event::AppAdded(app), made))
}
