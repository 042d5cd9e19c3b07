//! A tunnel that was served.

use grain_supervise::Link;
use std::marker::Model;
use tunnel_serve::TunnelEnd;
use ws_tunnel::Messages;

/// A tunnel as it stands once it was served, and how it ended.
#[derive(Drop)]
pub struct Tunnel<M: Messages, L: Link> {
    pub hall: M,
    pub link: L,
    pub end: TunnelEnd,
}

impl<M: Messages, L: Link> Model for Tunnel<M, L> {
    ghost use Rattle.serve_door.specs.Doors.{Tunnel as TheTunnel};

    ghost Value = { TheTunnel };

    ghost view = { λ one. record { hall = M.hall one.hall; line = L.line one.link; end = one.end } };
}
