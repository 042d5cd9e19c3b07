ghost use Rattle.std.specs.Prelude.{◌≡◌, ◌≤◌, ◌↔◌, ◌⊎◌};
ghost use Rattle.share_graph.specs.declared.facts.Fact.{Fact};

use perm_roles::PermSet;

/// What is held at a node: entry, and permissions.
#[derive(Clone, Copy, Debug, PartialEq, Eq)]
pub struct Held {
    pub entry: bool,
    pub perms: PermSet,
}

impl Held {
    ghost use Rattle.least_access.specs.Held.{IsIn, room};

    /// Nothing.
    pub fn none() -> Self
        ensures { (fact : Fact) → IsIn result fact → ⊥ }
    {
        Held {
            entry: false,
            perms: PermSet::empty(),
        }
    }

    /// What either holds.
    pub fn union(&self, other: &Held) -> Self
        ensures members { (fact : Fact) → IsIn result fact ↔ (IsIn self.now fact ⊎ IsIn other.now fact) }
        ensures room { room result ≤ room self.now }
        ensures same { room result ≡ room self.now → result ≡ self.now }
    {
        Held {
            entry: self.entry || other.entry,
            perms: self.perms.union(&other.perms),
        }
    }
}
