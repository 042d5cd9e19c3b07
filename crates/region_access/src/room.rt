use least_access::Held;
use region_work::Waiting;
use share_graph::Node;

/// The region of a change, what its nodes held before they were cleared, and room for all that can be found there. The region of
/// a change that only adds isn't cleared: it grows.
pub struct Room {
    pub nodes: Vec<Node>,
    pub before: Vec<Held>,
    pub waiting: Waiting,
    pub grows: bool,
}

// Written by hand: a proof then has one call wherever one is let go.
impl Drop for Room {
    fn drop(self) {
        let Room {
            nodes: _,
            before: _,
            waiting: _,
            grows: _,
        } = self;
    }
}
