//! The hash by which a cache looks for an identity.

use crate::scalar_ref::{PairRef, ScalarRef};
use series_id::{AttrSet, AttrValue, Attribute, Kind};
use std::hash::{FoldHasher, Hasher};

/// How many slots a cache has: three times as many as the store has series.
pub const SLOTS: usize = 32_768;

/// The largest size, in bytes, of an identity that a cache keeps.
const MAX_KEPT: usize = 4096;

/// How many bytes a part counts for beside its text.
const PART: usize = 16;

/// A hash of the parts of an identity: the two slots where a cache looks for it, and its size.
///
/// No answer depends on a hash, since an identity that a slot holds is compared in full.
#[derive(Clone, Copy)]
pub struct IdentityHash {
    hasher: FoldHasher,
    size: usize,
}

impl IdentityHash {
    /// The hash of no parts.
    pub fn new() -> IdentityHash {
        IdentityHash {
            hasher: FoldHasher::default(),
            size: 0,
        }
    }

    /// Adds a text.
    pub fn add_text(&mut self, text: &str) {
        self.hasher.write(text.as_bytes());
        self.add_size(text.len());
    }

    /// Adds attributes, in the order of the slice.
    pub fn add_pairs(&mut self, pairs: &[PairRef<'_>]) {
        for pair in pairs {
            self.add_text(pair.key);
            self.add_scalar(pair.value);
        }
    }

    /// Adds a single value.
    fn add_scalar(&mut self, value: ScalarRef<'_>) {
        match value {
            ScalarRef::Empty => self.add_size(0),
            ScalarRef::Truth(truth) => self.add_number(i64::from(truth)),
            ScalarRef::Int(number) => self.add_number(number),
            ScalarRef::Text(text) => self.add_text(text),
        }
    }

    /// Adds the attributes of a set, in key order.
    pub fn add_set(&mut self, set: &AttrSet) {
        for pair in set.pairs() {
            self.add_pair(pair);
        }
    }

    /// Adds a kind.
    pub fn add_kind(&mut self, kind: &Kind) {
        match kind {
            Kind::Sum { monotonic } => self.add_number(i64::from(*monotonic)),
            Kind::Histogram { bounds } => self.add_numbers(bounds.as_slice()),
        }
    }

    /// Whether the identity is small enough to be kept.
    pub fn is_small(self) -> bool {
        self.size <= MAX_KEPT
    }

    /// The slot where the identity is looked for first.
    pub fn slot(self) -> usize {
        (self.hasher.finish() % SLOTS as u64) as usize
    }

    /// The slot where it is looked for next.
    pub fn other_slot(self) -> usize {
        ((self.hasher.finish() >> 32) % SLOTS as u64) as usize
    }

    /// Adds an attribute of a set.
    fn add_pair(&mut self, pair: &Attribute) {
        self.add_text(pair.key.as_str());
        match &pair.value {
            AttrValue::One(scalar) => self.add_scalar(ScalarRef::of(scalar)),
            AttrValue::Many(scalars) => {
                for scalar in scalars.as_slice() {
                    self.add_scalar(ScalarRef::of(scalar));
                }
            }
        }
    }

    /// Adds numbers, in the order of the slice.
    fn add_numbers(&mut self, numbers: &[i64]) {
        for number in numbers {
            self.add_number(*number);
        }
    }

    /// Adds a number, which counts for `PART` bytes.
    fn add_number(&mut self, number: i64) {
        self.hasher.write_i64(number);
        self.add_size(0);
    }

    /// Adds the size of a part whose text has `length` bytes.
    fn add_size(&mut self, length: usize) {
        self.size = self.size.saturating_add(length).saturating_add(PART);
    }
}
