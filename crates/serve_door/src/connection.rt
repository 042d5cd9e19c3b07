//! A connection that was served.

use cloud_serve::{ConnEnd, Wire};
use grain_supervise::Link;
use host_base::{Sink, Source};
use std::marker::Model;

/// A connection as it stands once it was served, and how it ended.
#[derive(Drop)]
pub struct Connection<I: Source, O: Sink, L: Link> {
    pub wire: Wire<I, O, L>,
    pub end: ConnEnd,
}

impl<I: Source, O: Sink, L: Link> Model for Connection<I, O, L> {
    ghost use Rattle.serve_door.specs.Doors.{Connection as TheConnection};

    ghost Value = { TheConnection };

    ghost view = { λ one. record { wire = one.wire; end = one.end } };
}
