//! The names of permissions.

ghost use Rattle.std.specs.Prelude.{◌≡◌, ◌++◌, [], OnOk, IfOk};
ghost use Rattle.std.specs.List.{cons_option};
ghost use Rattle.session_table.specs.Naming.{AreNamesOf};
ghost use Rattle.session_table.specs.Verdict.{name_at};

use host_base::{Memory, Names};
use perm_roles::PermSet;
use plain_data::Name;
use share_graph::App;
use std::alloc::Global;

// Adds the name of the permission at a position, where the application has one there.
fn add_name(app: &App, place: u8, list: &mut Vec<Name>) -> Result<(), Memory>
    ensures { OnOk result (list.new.items ≡ list.old.items ++ cons_option (name_at app.now place) []) }
{
    if let Some(permission) = app.manifest.permissions.as_slice().get(usize::from(place)) {
        let name = permission.name.clone()?;
        if list.push(name).is_err() {
            return Err(Memory);
        }
    }
    Ok(())
}

/// The names of the permissions of a set, in the application's order.
pub fn names_of(alloc: Global, app: &App, set: PermSet) -> Result<Names, Memory>
    ensures { IfOk result (AreNamesOf app.now set) }
{
    let mut list = Vec::with_capacity(alloc, set.len() as usize)?;
    for place in 0..64u8 {
        if set.has(place) {
            add_name(app, place, &mut list)?;
        }
    }
    Ok(Names::new(list))
}
