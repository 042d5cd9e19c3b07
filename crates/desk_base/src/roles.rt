//! Whether an assignment may be given.

ghost use Rattle.std.specs.Prelude.{◌↔◌, IsTrue, MatchResult};
ghost use Rattle.desk_base.specs.Terms.{HasGrain, IsAppOf, IsChecked};
ghost use Rattle.desk_base.specs.Roles.{IsBaseOf, HasBaseFault, SetsAreShort, MayGive, HasRoleFault, MayGiveOn, HasRoleFaultOn};

use app_manifest::Manifest;
use host_base::GrainId;
use perm_roles::{Assignment, Base};
use share_graph::{App, Refusal, Tables, app_of};

// Whether what is added and what is removed are permissions of the application.
fn sets_are_short(manifest: &Manifest, assignment: &Assignment) -> bool
    ensures { IsTrue result ↔ SetsAreShort manifest.now assignment.now }
{
    let count = manifest.permissions.as_slice().len();
    assignment.add.fits(count) && assignment.remove.fits(count)
}

// Whether the base may be given.
fn given_base(manifest: &Manifest, base: Base) -> Result<(), Refusal>
    ensures { MatchResult result (λ _. IsBaseOf manifest.now base) (HasBaseFault manifest.now base) }
{
    match base {
        Base::NoRole => Ok(()),
        Base::AllAccess => Ok(()),
        Base::Role(number) => match manifest.roles.as_slice().get(usize::from(number)) {
            None => Err(Refusal::BadRole(number)),
            Some(role) => {
                if role.obsolete {
                    Err(Refusal::ObsoleteRole(number))
                } else {
                    Ok(())
                }
            }
        },
    }
}

// Whether an application gives an assignment.
fn given_by(manifest: &Manifest, assignment: &Assignment) -> Result<(), Refusal>
    ensures { MatchResult result (λ _. MayGive manifest.now assignment.now)
        (HasRoleFault manifest.now assignment.now) }
{
    given_base(manifest, assignment.base)?;
    if !sets_are_short(manifest, assignment) {
        return Err(Refusal::LongSet);
    }
    Ok(())
}

// The application of a grain that is there.
fn app_of_grain(tables: &Tables, num: GrainId) -> &App
    requires checked { IsChecked tables.now }
    requires there { HasGrain tables.now num }
    ensures { IsAppOf tables.now num result.now }
{
    match app_of(tables, num) {
        Some(app) => app,
        None => unreachable!(),
    }
}

/// Whether an assignment may be given on a grain, by its application.
pub fn given_role(tables: &Tables, num: GrainId, assignment: &Assignment) -> Result<(), Refusal>
    requires checked { IsChecked tables.now }
    requires there { HasGrain tables.now num }
    ensures { MatchResult result (λ _. MayGiveOn tables.now num assignment.now)
        (HasRoleFaultOn tables.now num assignment.now) }
{
    let app = app_of_grain(tables, num);
    given_by(&app.manifest, assignment)?;
    Ok(())
}
