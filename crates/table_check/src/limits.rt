ghost use Rattle.std.specs.Prelude.{◌↔◌, IsTrue};
ghost use Rattle.share_graph.specs.WellFormed.{IsWithinLimits};

use share_graph::Tables;

/// Whether tables have at most 4,096 accounts, 256 applications, 16,384 grains, 65,536 grants and 65,536 saved references.
pub fn is_within_limits(tables: &Tables) -> bool
    ensures { IsTrue result ↔ IsWithinLimits tables.now }
{
    tables.accounts.as_slice().len() <= 4096
        && tables.apps.as_slice().len() <= 256
        && tables.grains.as_slice().len() <= 16384
        && tables.grants.as_slice().len() <= 65536
        && tables.saved.as_slice().len() <= 65536
}
