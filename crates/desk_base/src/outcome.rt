//! What becomes of a command.

ghost use Rattle.std.specs.Prelude.{◌≡◌, MatchResult};
ghost use Rattle.desk_base.specs.Outcomes.{with_digest, Completes, HasClash};

use crate::stop::Stop;
use host_base::Digest;
use share_graph::{Event, Made, Refusal, Run, Session, State, clash};

/// A change that waits for the digest of a secret, and what the reply shows. The digest in its event is blank.
#[derive(Drop)]
pub struct Draft {
    pub event: Event,
    pub made: Made,
}

/// What becomes of a command that comes to a change: it is made, or it wants a secret first.
#[derive(Drop)]
pub enum Outcome {
    Change(Event, Made),
    Draft(Draft),
}

/// What a desk answers to a command.
pub type Answer = Result<Outcome, Stop>;

// The event with a digest, where its row has one.
fn with_digest(event: Event, digest: Digest) -> Event
    ensures { result ≡ with_digest event digest }
{
    match event {
        Event::AccountAdded(mut account) => {
            account.login = digest;
            Event::AccountAdded(account)
        }
        Event::GrantAdded(mut grant) => {
            grant.digest = Some(digest);
            Event::GrantAdded(grant)
        }
        Event::SavedAdded(mut saved) => {
            saved.digest = digest;
            Event::SavedAdded(saved)
        }
        Event::RunStarted(run) => Event::RunStarted(Run { digest, ..run }),
        Event::SessionOpened(session) => Event::SessionOpened(Session { digest, ..session }),
        Event::LoginSet(num, _) => Event::LoginSet(num, digest),
        other => other,
    }
}

impl Draft {
    /// The change with the digest of the secret that was drawn, which no row may have.
    pub fn complete(self, state: &State, digest: Digest) -> Result<(Event, Made), Refusal>
        ensures { MatchResult result (Completes state.now digest self) (HasClash state.now digest) }
    {
        match clash(state, &digest) {
            Some((kind, num)) => Err(Refusal::TokenClash(kind, num)),
            None => Ok((with_digest(self.event, digest), self.made)),
        }
    }
}
