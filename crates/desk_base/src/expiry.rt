//! Whether a grant would last.

ghost use Rattle.std.specs.Prelude.{◌≡◌, MatchResult};
ghost use Rattle.share_graph.specs.declared.refusal.Refusal.TheVariants.{PastMoment};
ghost use Rattle.share_graph.specs.Expiry.{Lasts};

use share_graph::{Refusal, Tables, lasts};

/// Whether an expiry, in seconds, if there is one, is above the moment of the last tick.
pub fn good_expiry(tables: &Tables, expires: Option<u64>) -> Result<(), Refusal>
    ensures { let Good = Lasts tables.now.moment expires in
        MatchResult result (λ _. Good) (λ refusal. (refusal ≡ PastMoment tables.now.moment) × (Good → ⊥)) }
{
    if !lasts(tables.moment, expires) {
        return Err(Refusal::PastMoment(tables.moment));
    }
    Ok(())
}
