//! A connection.

use grain_supervise::Link;
use host_base::{Sink, Source};
use std::marker::Model;

/// A connection: what requests are read from, what answers are written to, and the link that they are forwarded over. It is
/// what these tell.
#[derive(Drop)]
pub struct Wire<I: Source, O: Sink, L: Link> {
    pub input: I,
    pub out: O,
    pub link: L,
}

impl<I: Source, O: Sink, L: Link> Model for Wire<I, O, L> {
    ghost use Rattle.cloud_serve.specs.Served.{Wired};

    ghost Value = { Wired };

    ghost view = { λ wire. record { inlet = I.inlet wire.input; outlet = O.outlet wire.out; line = L.line wire.link } };
}
