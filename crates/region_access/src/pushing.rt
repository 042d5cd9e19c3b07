//! Adding to a list what there is.

ghost use Rattle.std.specs.Prelude.{◌≡◌, ◌⊎◌, ◌↔◌, Some, Contains, OnOk};

use host_base::Memory;

/// Adds an item, if there is one.
pub fn push_some<T: Drop>(items: &mut Vec<T>, item: Option<T>) -> Result<(), Memory>
    ensures { OnOk result ((x : T) → Contains items.new.items x ↔ (Contains items.old.items x
        ⊎ (item ≡ Some x))) }
{
    let Some(item) = item else {
        return Ok(());
    };
    match items.push(item) {
        Ok(_) => Ok(()),
        Err(_) => Err(Memory),
    }
}
