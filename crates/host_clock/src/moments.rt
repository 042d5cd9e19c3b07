ghost use Rattle.std.specs.Prelude.{◌≡◌, ◌≢◌, [], MatchOption};

use std::marker::Model;

/// Moments in seconds, at least one. Contracts see them as a list.
#[derive(Debug, Drop)]
pub struct Moments {
    items: Vec<u64>,
}

impl Model for Moments {
    ghost use Rattle.std.specs.Prelude.{◌≢◌, List, ℕ, []};

    ghost Value = { List ℕ };

    ghost view = { λ moments. moments.items.items };

    ghost invariant = { λ moments. moments.items.items ≢ [] };
}

impl Moments {
    /// The moments of a `Vec`; none where it is empty.
    pub fn new(items: Vec<u64>) -> Option<Self>
        ensures { MatchOption result (items.items ≡ []) (λ moments. (moments ≡ items.items) × (moments ≢ [])) }
    {
        if items.is_empty() {
            return None;
        }
        Some(Moments { items })
    }

    /// The moments as a slice.
    pub fn as_slice(&self) -> &[u64]
        ensures value { result.now ≡ self.now }
        ensures some { self.now ≢ [] }
    {
        self.items.as_slice()
    }
}
