use crate::index::Ties;
use region_work::edges::Edges;

/// The grants of tables by what they have to do with: those that each node feeds, those that go to each node, those that hang on
/// each grain and on each account's being an admin, and those that end at each moment.
pub struct Indexes {
    pub edges: Edges,
    pub arrivals: Edges,
    pub ties: Ties,
}

// Written by hand: a proof then has one call wherever one is let go.
impl Drop for Indexes {
    fn drop(self) {
        let Indexes {
            edges: _,
            arrivals: _,
            ties: _,
        } = self;
    }
}
