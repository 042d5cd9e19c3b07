//! The objects around the server. Each type has all kinds of its objects, so that the server is compiled once for them.

use cloud_keeper::MemKeeper;
use grain_supervise::{Ask, AskFault, CannedLink, EchoLink, FakeSpawner, Link};
use host_base::{Answer, DrawFailed, GrainId, ListSecrets, Memory, RunId, Secrets, SeqSecrets};
use std::alloc::Global;

/// The objects around the server, which go on from run to run.
#[derive(Drop)]
pub struct Objects {
    pub link: AnyLink,
    pub keeper: MemKeeper,
    pub secrets: AnySecrets,
    pub spawner: FakeSpawner,
}

/// A link that echoes, or one with answers of its own.
pub enum AnyLink {
    Echo(EchoLink),
    Canned(CannedLink),
}

// Written by hand, so that a proof has one call wherever a link is let go.
impl Drop for AnyLink {
    fn drop(self) {
        match self {
            AnyLink::Echo(_) => (),
            AnyLink::Canned(_) => (),
        }
    }
}

impl AnyLink {
    /// What was asked, with what came back.
    pub fn asked(&self) -> &[Ask] {
        match self {
            AnyLink::Echo(link) => link.asked(),
            AnyLink::Canned(link) => link.asked(),
        }
    }
}

impl Link for AnyLink {
    ghost use Rattle.conversations.specs.Objects.{line_of};

    ghost line = { line_of };

    #[tactic(auto, unfolding(crate::specs::Objects::line_of))]
    fn ask(
        &mut self,
        alloc: Global,
        run: RunId,
        grain: GrainId,
        text: &[u8],
    ) -> Result<Answer, AskFault> {
        match self {
            AnyLink::Echo(link) => link.ask(alloc, run, grain, text),
            AnyLink::Canned(link) => link.ask(alloc, run, grain, text),
        }
    }

    #[tactic(auto, unfolding(crate::specs::Objects::line_of))]
    fn another(&self, alloc: Global) -> Result<Self, Memory> {
        match self {
            AnyLink::Echo(link) => Ok(AnyLink::Echo(link.another(alloc)?)),
            AnyLink::Canned(link) => Ok(AnyLink::Canned(link.another(alloc)?)),
        }
    }
}

/// Secrets in sequence, or those of a list.
#[derive(Drop)]
pub enum AnySecrets {
    Sequence(SeqSecrets),
    Listed(ListSecrets),
}

impl Secrets for AnySecrets {
    ghost use Rattle.conversations.specs.Objects.{drawer_of};

    ghost drawer = { drawer_of };

    #[tactic(auto, unfolding(crate::specs::Objects::drawer_of))]
    fn draw(&mut self) -> Result<[u8; 32], DrawFailed> {
        match self {
            AnySecrets::Sequence(secrets) => secrets.draw(),
            AnySecrets::Listed(secrets) => secrets.draw(),
        }
    }
}
