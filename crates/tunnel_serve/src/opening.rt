//! The first message of a tunnel, which is to be the key of a session.

ghost use Rattle.std.specs.Prelude.{◌≡◌, List, ℕ, MatchOption};
ghost use Rattle.tunnel_serve.specs.Inner.{IsOpenedBy, Opens, Refuses};
ghost use Rattle.tunnel_serve.specs.Tunnels.{IsKeyText};

use crate::tunnel_end::HallEnd;
use host_base::{Denial, Digest, Memory, digest_of};
use reply_texts::denial_body;
use std::alloc::Global;
use ws_tunnel::{HallFault, Message, Messages};

// The most bytes of a key.
const LONGEST_KEY: usize = 64;

// The session whose key a first message is, if it is one.
fn session_in(first: &Message) -> Option<Digest>
    ensures { MatchOption result (IsKeyText first.now → ⊥) (IsOpenedBy first.now) }
{
    match first {
        Message::Text(text) => {
            if text.len() <= LONGEST_KEY {
                Some(digest_of(text.as_slice()))
            } else {
                None
            }
        }
        Message::Binary(_) => None,
    }
}

// Says that a first message is no key.
fn refuse<M: Messages>(alloc: Global, messages: &mut M) -> HallEnd
    ensures { Refuses (M.hall messages.old) (M.hall messages.new) result }
{
    match denial_body(alloc, &Denial::UnknownKey) {
        Err(Memory) => HallEnd::Memory,
        Ok(body) => match messages.put(alloc, &Message::Text(body)) {
            Ok(()) => HallEnd::Refused(Denial::UnknownKey),
            Err(HallFault::Failed) => HallEnd::WriteFault,
            Err(HallFault::Memory) => HallEnd::Memory,
        },
    }
}

/// Takes the first message: the session whose key it is, or how the tunnel ended.
pub fn open<M: Messages>(alloc: Global, messages: &mut M) -> Result<Digest, HallEnd>
    ensures { Opens (M.hall messages.old) (M.hall messages.new) result }
{
    match messages.next(alloc) {
        Ok(next) => match next {
            None => Err(HallEnd::Closed),
            Some(first) => match session_in(&first) {
                Some(who) => Ok(who),
                None => Err(refuse(alloc, messages)),
            },
        },
        Err(HallFault::Failed) => Err(HallEnd::ReadFault),
        Err(HallFault::Memory) => Err(HallEnd::Memory),
    }
}
