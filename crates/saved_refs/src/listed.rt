use powerbox_match::Quality;
use share_graph::Offer;

/// An offer of the powerbox, and how well it matches what was asked for.
#[derive(Clone, Copy, PartialEq, Eq)]
pub struct Listed {
    pub offer: Offer,
    pub quality: Quality,
}
