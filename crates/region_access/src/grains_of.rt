//! The grains of an application.

ghost use Rattle.std.specs.Prelude.{◌≡◌, ◌↔◌, Contains, IfOk, IsTrue};
ghost use Rattle.host_base.specs.declared.ids.GrainId as the_id;
ghost use Rattle.share_graph.specs.Coherent.{HasNumbers};
ghost use Rattle.region_access.specs.Seeds.{IsGrainOf};

use host_base::{AppId, GrainId, Memory};
use share_graph::{Grain, Tables};
use std::alloc::Global;

// Whether a grain is of an application.
fn is_of(grain: &Grain, app: AppId) -> bool
    ensures { IsTrue result ↔ (grain.now.app ≡ app) }
{
    grain.app == app
}

/// The numbers of the grains of an application.
pub(crate) fn grains_of(alloc: Global, tables: &Tables, app: AppId) -> Result<Vec<GrainId>, Memory>
    requires { HasNumbers tables.now }
    ensures { IfOk result (λ nums. (num : the_id.GrainId) → Contains nums.items num ↔ IsGrainOf tables.now app num) }
{
    let mut nums = Vec::new(alloc);
    for (place, grain) in tables.grains.as_slice().iter().enumerate() {
        if is_of(grain, app) {
            let Ok(_) = nums.push(GrainId(place as u32 + 1)) else {
                return Err(Memory);
            };
        }
    }
    Ok(nums)
}
