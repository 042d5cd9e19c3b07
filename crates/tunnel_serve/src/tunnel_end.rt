//! How a tunnel ended.

use cloud_serve::Places;
use host_base::Denial;
use ws_tunnel::HallFault;

/// How a tunnel ended.
#[derive(Clone, Copy, Debug, PartialEq, Eq)]
pub enum HallEnd {
    /// The messages ended.
    Closed,
    /// A message was refused, or the first one is no key, and that was said.
    Refused(Denial),
    /// The next message couldn't be read.
    ReadFault,
    /// A message couldn't be put.
    WriteFault,
    /// As many messages were served as one tunnel may have.
    Spent,
    /// Memory ran out.
    Memory,
}

/// How a tunnel ended: how much of the history was seen at its start, the place of each verdict, and how many texts were asked of
/// the link.
#[derive(Drop)]
pub struct TunnelEnd {
    pub end: HallEnd,
    pub from: u64,
    pub places: Places,
    pub passed: u64,
}
