//! Sets of positions 0 to 63.

ghost use Rattle.std.specs.Prelude.{◌≡◌, ◌↔◌, ◌⊎◌, ◌<◌, ◌≤◌, ◌^◌, ℕ, true, All, Contains, IfOk, IsOk, IsTrue, length, slice_get};
ghost use Rattle.std.specs.Int.{bit_at};
ghost use Rattle.std.specs.List.Sorted.{IsStrictlyIncreasing};

use std::error::Error;
use std::fmt::{self, Display, Formatter, Write};

/// Why a list states no set of permissions.
#[derive(Clone, Copy, Debug, PartialEq, Eq)]
pub enum SetFault {
    /// There are more than 64 permissions.
    TooManyPermissions,
    /// The list is of more permissions than there are.
    LongSet,
}

impl Display for SetFault {
    fn fmt<W: Write>(&self, f: &mut Formatter<W>) -> fmt::Result {
        match self {
            SetFault::TooManyPermissions => write!(f, "there are more than 64 permissions"),
            SetFault::LongSet => write!(f, "a set is of more permissions than there are"),
        }
    }
}

impl Error for SetFault {}

/// A set of positions 0 to 63, the places of permissions in their list.
#[derive(Clone, Copy, Debug, PartialEq, Eq)]
pub struct PermSet {
    bits: u64,
    ghost in_range: { bits < 2 ^ 64 },
}

impl PermSet {
    ghost use Rattle.perm_roles.specs.PermSet.{Has, IsWithin, bits_of, no_permissions, positions, set_of};
    ghost use Rattle.perm_roles.specs.declared.perm_set.PermSet.{PermSet};
    ghost use Rattle.perm_roles.specs.declared.perm_set.SetFault.{SetFault};

    /// The set with no position.
    pub fn empty() -> Self
        ensures value { result ≡ no_permissions }
        ensures members { (p : ℕ) → ¬ Has result p }
    {
        PermSet { bits: 0 }
    }

    /// The set with every position below the count.
    pub fn all(count: u8) -> Self
        requires { count ≤ 64 }
        ensures { (p : ℕ) → Has result p ↔ (p < count) }
    {
        if count == 64 {
            return PermSet { bits: u64::MAX };
        }
        PermSet {
            bits: (1 << count) - 1,
        }
    }

    /// The set of the places at which the list has true, for a list of at most that many permissions.
    pub fn from_list(list: &[bool], count: u8) -> Result<Self, SetFault>
        ensures value { IfOk result (λ set. set ≡ set_of list.now) }
        ensures members { IfOk result (λ set. (p : ℕ) → Has set p ↔ (slice_get list.now p ≡ Some true)) }
        ensures ok { IsOk result ↔ ((count ≤ 64) × (length list.now ≤ count)) }
        ensures too_many { (result ≡ Err SetFault.TooManyPermissions) ↔ (64 < count) }
        ensures long { (result ≡ Err SetFault.LongSet) ↔ ((count ≤ 64) × (count < length list.now)) }
    {
        if count > 64 {
            return Err(SetFault::TooManyPermissions);
        }
        if list.len() > usize::from(count) {
            return Err(SetFault::LongSet);
        }
        let mut bits = 0;
        for (place, is_in) in list.iter().enumerate() {
            if *is_in {
                bits |= 1 << place;
            }
        }
        Ok(PermSet { bits })
    }

    /// The set of a word: bit `p`, from the lowest, is 1 where position `p` is in the set.
    pub fn from_bits(bits: u64) -> Self
        ensures word { bits_of result ≡ bits }
        ensures members { (p : ℕ) → Has result p ↔ (bit_at bits p ≡ 1) }

        // It gives back the set that had this word.
        ensures same { (set : PermSet) → bits_of set ≡ bits → result ≡ set }
    {
        PermSet { bits }
    }

    /// The word of the set: bit `p`, from the lowest, is 1 where position `p` is in the set.
    pub fn bits(&self) -> u64
        ensures word { result ≡ bits_of self.now }
        ensures members { (p : ℕ) → Has self.now p ↔ (bit_at result p ≡ 1) }
    {
        self.bits
    }

    /// Whether the position is in the set.
    pub fn has(&self, pos: u8) -> bool
        requires { pos < 64 }
        ensures { IsTrue result ↔ Has self.now pos }
    {
        (self.bits >> pos) & 1 == 1
    }

    /// The positions that are in either set.
    pub fn union(&self, other: &PermSet) -> Self
        ensures { (p : ℕ) → Has result p ↔ (Has self.now p ⊎ Has other.now p) }
    {
        PermSet {
            bits: self.bits | other.bits,
        }
    }

    /// The positions of this set that are not in the other.
    pub fn minus(&self, other: &PermSet) -> Self
        ensures { (p : ℕ) → Has result p ↔ (Has self.now p × ¬ Has other.now p) }
    {
        PermSet {
            bits: self.bits & !other.bits,
        }
    }

    /// The positions that are in both sets.
    pub fn meet(&self, other: &PermSet) -> Self
        ensures { (p : ℕ) → Has result p ↔ (Has self.now p × Has other.now p) }
    {
        PermSet {
            bits: self.bits & other.bits,
        }
    }

    /// Whether the set has every position of the other.
    pub fn contains(&self, other: &PermSet) -> bool
        ensures answer { IsTrue result ↔ ((p : ℕ) → Has other.now p → Has self.now p) }

        // Two sets with the same positions are one set.
        ensures same { ((p : ℕ) → Has self.now p ↔ Has other.now p) → self.now ≡ other.now }
    {
        self.bits & other.bits == other.bits
    }

    /// Whether every position of the set is below the count.
    pub fn fits(&self, count: usize) -> bool
        ensures answer { IsTrue result ↔ IsWithin self.now count }
        ensures always { IsWithin self.now 64 }
    {
        let bits = self.bits;
        count >= 64 || bits >> count == 0
    }

    /// How many positions the set has.
    pub fn len(&self) -> u32
        ensures count { result ≡ length (positions self.now) }
        ensures members { (p : ℕ) → Contains (positions self.now) p ↔ Has self.now p }
        ensures ascending { IsStrictlyIncreasing (positions self.now) }
        ensures below { All (λ p. p < 64) (positions self.now) }
    {
        self.bits.count_ones()
    }

    /// Whether the set has no position.
    pub fn is_empty(&self) -> bool
        ensures { IsTrue result ↔ ((p : ℕ) → ¬ Has self.now p) }
    {
        self.bits == 0
    }
}
