//! Tags, descriptors and queries, each within its limits.

ghost use Rattle.std.specs.Prelude.{◌≡◌, ◌≤◌, ◌↔◌, IfOk, IsTrue, length};
ghost use Rattle.powerbox_match.specs.Value.{nesting, is_tidy, is_within_limits, tag_data};
ghost use Rattle.powerbox_match.specs.Comparisons.{weight, lists};
ghost use Rattle.powerbox_match.specs.Sorted.{is_sorted, MatchesAlike};

use crate::sameness::is_same_value;
use crate::sorted::sorted_form;
use crate::value::{Quality, TagValue};
use plain_data::List;
use std::alloc::AllocError;
use std::marker::Model;

/// A statement about an object: an id that says what is stated, and a value.
///
/// The value nests at most 16 deep, each list in it has at most 1,000 entries, and the names of
/// fields ascend by their bytes, so that none stands twice. A form of it in which the items of
/// each list stand in order is kept beside it, for matching.
pub struct Tag {
    id: u64,
    value: TagValue,
    sorted: TagValue,
}

// Written by hand: a proof then has one call wherever one is let go.
impl Drop for Tag {
    fn drop(self) {
        let Tag {
            id: _,
            value: _,
            sorted: _,
        } = self;
    }
}

impl Model for Tag {
    ghost use Rattle.std.specs.Prelude.{ℕ, ◌≤◌, IsTrue};
    ghost use Rattle.std.specs.Coded.{coded×, coded_ℕ};
    ghost use Rattle.powerbox_match.specs.Value.{TagData, tag_data, nesting, is_tidy};
    ghost use Rattle.powerbox_match.specs.Code.{value_code};
    ghost use Rattle.powerbox_match.specs.Sorted.{IsSortedForm};

    ghost Value = { ℕ × TagData };

    ghost coded = { coded× coded_ℕ value_code };

    ghost view = { λ tag. (tag.id, tag_data tag.value) };

    ghost invariant = { λ tag. (nesting (tag_data tag.value) ≤ 16) × IsTrue (is_tidy (tag_data tag.value))
        × IsSortedForm (tag_data tag.sorted) (tag_data tag.value) };
}

impl Tag {
    /// The tag of an id and a value that is within the limits of a tag.
    ///
    /// Its only error is want of memory.
    pub fn new(id: u64, value: TagValue) -> Result<Self, AllocError>
        requires { IsTrue (is_within_limits (tag_data value)) }
        ensures { IfOk result (λ tag. tag ≡ (id, tag_data value)) }
    {
        let sorted = sorted_form(&value)?;
        Ok(Tag { id, value, sorted })
    }

    /// The id, which says what the tag states.
    pub fn id(&self) -> u64
        ensures { result ≡ self.now.0 }
    {
        self.id
    }

    /// The value, which is within the limits of a tag.
    pub fn value(&self) -> &TagValue
        ensures value { tag_data result.now ≡ self.now.1 }
        ensures within { IsTrue (is_within_limits self.now.1) }
        ensures shallow { nesting self.now.1 ≤ 16 }
        ensures tidy { IsTrue (is_tidy self.now.1) }
    {
        &self.value
    }

    // The value in the form in which it is compared.
    pub(crate) fn sorted(&self) -> &TagValue
        ensures alike { MatchesAlike (tag_data result.now) self.now.1 }
        ensures sorted { IsTrue (is_sorted (tag_data result.now)) }
        ensures weight { weight (tag_data result.now) ≡ weight self.now.1 }
        ensures lists { lists (tag_data result.now) ≡ lists self.now.1 }
    {
        &self.sorted
    }

    // Whether it has the id and the value that the other has.
    pub(crate) fn is_same(&self, other: &Tag) -> bool
        ensures { IsTrue result ↔ (self.now ≡ other.now) }
    {
        self.id == other.id && is_same_value(&self.value, &other.value)
    }
}

impl Clone for Tag {
    ghost is_clone = { λ tag copy. copy ≡ tag };

    fn clone(&self) -> Result<Tag, AllocError> {
        let value = self.value.clone()?;
        let sorted = self.sorted.clone()?;
        Ok(Tag {
            id: self.id,
            value,
            sorted,
        })
    }
}

/// What an object is, or what is asked for: at most 32 tags, and a quality.
pub struct Descriptor {
    tags: Vec<Tag>,
    quality: Quality,
}

impl Drop for Descriptor {
    fn drop(self) {
        let Descriptor {
            tags: _,
            quality: _,
        } = self;
    }
}

impl Model for Descriptor {
    ghost use Rattle.std.specs.Prelude.{◌≤◌, length};
    ghost use Rattle.powerbox_match.specs.Descriptor.{DescriptorData};
    ghost use Rattle.powerbox_match.specs.Code.{descriptor_code};

    ghost Value = { DescriptorData };

    ghost coded = { descriptor_code };

    ghost view = { λ descriptor. record { tags = descriptor.tags.items; quality = descriptor.quality } };

    ghost invariant = { λ descriptor. length descriptor.tags.items ≤ 32 };
}

impl Descriptor {
    /// The descriptor of at most 32 tags and a quality.
    pub fn new(tags: Vec<Tag>, quality: Quality) -> Self
        requires { length tags.items ≤ 32 }
        ensures { result ≡ record { tags = tags.items; quality = quality } }
    {
        Descriptor { tags, quality }
    }

    /// The tags, of which there are at most 32.
    pub fn tags(&self) -> &[Tag]
        ensures tags { result.now ≡ self.now.tags }
        ensures few { length self.now.tags ≤ 32 }
    {
        self.tags.as_slice()
    }

    /// How well the object suits.
    pub fn quality(&self) -> Quality
        ensures { result ≡ self.now.quality }
    {
        self.quality
    }

    /// Whether it says exactly what the other says: the same tags, with the same values, in the
    /// same order, and the same quality.
    pub fn is_same(&self, other: &Descriptor) -> bool
        ensures { IsTrue result ↔ (self.now ≡ other.now) }
    {
        self.quality == other.quality && are_same_tags(self.tags(), other.tags())
    }
}

fn are_same_tags(tags: &[Tag], others: &[Tag]) -> bool
    ensures { IsTrue result ↔ (tags.now ≡ others.now) }
{
    if tags.len() != others.len() {
        return false;
    }
    for (place, tag) in tags.iter().enumerate() {
        if !tag.is_same(&others[place]) {
            return false;
        }
    }
    true
}

impl Clone for Descriptor {
    ghost is_clone = { λ descriptor copy. copy ≡ descriptor };

    fn clone(&self) -> Result<Descriptor, AllocError> {
        let mut tags = Vec::with_capacity(*self.tags.allocator(), self.tags.len())?;
        for tag in &self.tags {
            tags.push(tag.clone()?)?;
        }
        Ok(Descriptor {
            tags,
            quality: self.quality,
        })
    }
}

/// Descriptors, any of which may match an offer.
pub type Query = List<Descriptor>;
