//! An attribute (a key and its value), and attribute sets.

ghost use Rattle.std.specs.Prelude.{◌≡◌, ◌↔◌, ◌<◌, IfErr, IfOk, IsTrue, None, OnOk, [], unwrap_or};
ghost use Rattle.series_id.specs.Attributes.{IsAttrSet, attribute_cmp, attrs_cmp};
ghost use Rattle.series_id.specs.Pairs.{attr_refusal};
ghost use Rattle.series_id.specs.Sorting.{sorted_by_key};

use crate::checks::attr_fault;
use crate::faults::AttrFault;
use crate::sorting::sort_by_key;
use crate::texts::Text;
use crate::values::AttrValue;
use std::alloc::{AllocError, Global};
use std::cmp::Ordering;
use std::marker::Model;
use std::sync::Arc;

/// A key and its value.
#[derive(Drop)]
pub struct Attribute {
    /// The key.
    pub key: Text,
    /// The value.
    pub value: AttrValue,
}

/// A set of attributes: the keys ascend by bytes, so that one set has one list of pairs. It has
/// at most `MAX_ATTRIBUTES` pairs, lists of at most `MAX_VALUES` values, and texts of at most
/// `MAX_TEXT` bytes. Contracts see it as the list of its pairs.
///
/// Copies share the pairs by counting their owners, so a copy takes no memory. Nor does the
/// empty set.
#[derive(Drop)]
pub struct AttrSet {
    pairs: Option<Arc<Vec<Attribute>, Global>>,
}

impl Model for AttrSet {
    ghost use Rattle.std.specs.Prelude.{List};
    ghost use Rattle.series_id.specs.declared.attributes.Attribute.{Attribute};
    ghost use Rattle.series_id.specs.Attributes.{IsAttrSet};
    ghost use Rattle.series_id.specs.inner.Shares.{shared_items};

    ghost Value = { List Attribute };

    ghost view = { λ s. shared_items s.pairs };

    ghost invariant = { λ s. IsAttrSet (shared_items s.pairs) };
}

impl Attribute {
    /// An equal attribute.
    pub fn copy(&self, alloc: Global) -> Result<Attribute, AllocError>
        ensures { IfOk result (λ copy. copy ≡ self.now) }
    {
        let key = self.key.copy(alloc)?;
        let value = self.value.copy(alloc)?;
        Ok(Attribute { key, value })
    }

    /// Which of two attributes comes first: by key, then by value.
    pub(crate) fn compare(&self, other: &Attribute) -> Ordering
        ensures { result ≡ attribute_cmp self.now other.now }
    {
        self.key
            .compare(&other.key)
            .then_with(|| self.value.compare(&other.value))
    }
}

impl AttrSet {
    /// The empty set. Takes no memory.
    pub fn empty(_alloc: Global) -> AttrSet
        ensures { result ≡ [] }
    {
        let pairs = None;
        AttrSet { pairs }
    }

    /// The set of these pairs. Their order makes no difference.
    ///
    /// Errors, in this order: `TooMany` (more than `MAX_ATTRIBUTES` pairs, or a list of more than
    /// `MAX_VALUES` values), `TextTooLong` (a key or a text value of more than `MAX_TEXT` bytes),
    /// `DuplicateKey` (a key occurs twice), `NoMemory`.
    pub fn from_pairs(alloc: Global, pairs: Vec<(Text, AttrValue)>) -> Result<AttrSet, AttrFault>
        ensures fault { IfErr result (λ e.
            e ≡ unwrap_or (attr_refusal pairs.items) AttrFault.NoMemory) }
        ensures none { OnOk result (attr_refusal pairs.items ≡ None) }
        ensures set { IfOk result (λ set. set ≡ sorted_by_key pairs.items) }
    {
        if let Some(fault) = attr_fault(pairs.as_slice()) {
            return Err(fault);
        }
        let sorted = sort_by_key(alloc, pairs)?;
        Ok(share_pairs(alloc, sorted)?)
    }

    /// The pairs, ascending by key.
    pub fn pairs(&self) -> &[Attribute]
        ensures { result.now ≡ self.now }
    {
        match &self.pairs {
            None => &[],
            Some(shared) => shared.as_slice(),
        }
    }

    /// An equal set, which shares its pairs with this one. Takes no memory.
    pub fn copy(&self, _alloc: Global) -> Result<AttrSet, AllocError>
        ensures { IfOk result (λ copy. copy ≡ self.now) }
    {
        match &self.pairs {
            None => Ok(AttrSet { pairs: None }),
            Some(shared) => Ok(AttrSet {
                pairs: Some(Arc::try_clone(shared)?),
            }),
        }
    }

    /// How many sets share these pairs now, including this one.
    pub fn owners(&self) -> usize
        ensures { 0 < result }
    {
        match &self.pairs {
            None => 1,
            Some(shared) => Arc::strong_count(shared),
        }
    }

    /// Whether both sets have the same attributes.
    pub fn is_same(&self, other: &AttrSet) -> bool
        ensures { IsTrue result ↔ (self.now ≡ other.now) }
    {
        self.compare(other).is_eq()
    }

    /// Which of two sets comes first: the first pair that differs decides, and a proper prefix
    /// comes before what it begins.
    pub(crate) fn compare(&self, other: &AttrSet) -> Ordering
        ensures { result ≡ attrs_cmp self.now other.now }
    {
        compare_pairs(self.pairs(), other.pairs())
    }
}

/// The set of pairs that are sorted and within the limits. The empty set takes no memory.
fn share_pairs(alloc: Global, sorted: Vec<Attribute>) -> Result<AttrSet, AllocError>
    requires { IsAttrSet sorted.items }
    ensures { IfOk result (λ set. set ≡ sorted.items) }
{
    if sorted.is_empty() {
        return Ok(AttrSet { pairs: None });
    }
    Ok(AttrSet {
        pairs: Some(Arc::new(alloc, sorted)?),
    })
}

/// Which of two lists of pairs comes first.
fn compare_pairs(mine: &[Attribute], its: &[Attribute]) -> Ordering
    ensures { result ≡ attrs_cmp mine.now its.now }
{
    let shared = mine.len().min(its.len());
    for i in 0..shared {
        match mine[i].compare(&its[i]) {
            Ordering::Equal => {}
            order => return order,
        }
    }
    mine.len().cmp(&its.len())
}
