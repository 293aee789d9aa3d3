//! Identities that are stored once and shared.

ghost use Rattle.std.specs.Prelude.{◌≡◌, ◌↔◌, ◌<◌, IfErr, IfOk, IfSome, IsTrue};
ghost use Rattle.series_id.specs.Identity.{Identity, IsIdentity};
ghost use Rattle.series_id.specs.Order.{same_series};
ghost use Rattle.series_id.specs.inner.Written as spec;

use crate::series::SeriesId;
use crate::shared_parts::{SharedParts, if_few, series_of};
use crate::written::written;
use std::alloc::{AllocError, AllocFailed, Global};
use std::hash::{FoldHasher, Hasher};
use std::marker::Model;
use std::sync::Arc;
use std::sync::atomic::AtomicUsize;
use std::sync::atomic::Ordering::Relaxed;

/// An identity behind a count of its owners, one word wide. Contracts see it as an `Identity`.
pub struct SharedId {
    kept: Arc<SharedParts, Global>,
}

impl Model for SharedId {
    ghost use Rattle.std.specs.Arc.{arc_value};
    ghost use Rattle.series_id.specs.Identity.{Identity, IsIdentity};

    ghost Value = { Identity };

    ghost view = { λ s. (arc_value s.kept).series };

    ghost use Rattle.series_id.specs.inner.Written.{written};
    ghost use Rattle.std.specs.Prelude.{◌≡◌};
    ghost use Rattle.std.specs.Option.{ForSome};

    ghost invariant = { λ s. IsIdentity (arc_value s.kept).series
        × ForSome (arc_value s.kept).written
        (λ bytes. bytes.items ≡ written (arc_value s.kept).series) };
}

// Written by hand: a derived `drop` is proved again in each crate that drops one.
impl Drop for SharedId {
    fn drop(self) {
        let SharedId { kept: _ } = self;
    }
}

impl SharedId {
    /// This identity, with one owner. If memory runs out, the error returns the identity.
    pub fn new(alloc: Global, series: SeriesId) -> Result<SharedId, AllocFailed<SeriesId>>
        ensures same { IfOk result (λ shared. shared ≡ series) }
        ensures back { IfErr result (λ refused. refused.value ≡ series) }
    {
        let Ok(written) = written(alloc, &series) else {
            return Err(AllocFailed { value: series });
        };
        let hash = hash_of(&written);
        let Ok(written) = if_few(alloc, &written) else {
            return Err(AllocFailed { value: series });
        };
        let place = AtomicUsize::new(0);
        let parts = SharedParts {
            series,
            written,
            hash,
            place,
        };
        match Arc::new(alloc, parts) {
            Ok(kept) => Ok(SharedId { kept }),
            Err(refused) => Err(AllocFailed {
                value: series_of(refused.value),
            }),
        }
    }

    /// The identity.
    pub fn as_series(&self) -> &SeriesId
        ensures { result.now ≡ self.now }
    {
        &self.kept.series
    }

    /// The same identity, with one more owner. Takes no memory: it fails only where the count of
    /// owners is full.
    pub fn share(&self) -> Result<SharedId, AllocError>
        ensures { IfOk result (λ shared. shared ≡ self.now) }
    {
        let kept = Arc::try_clone(&self.kept)?;
        Ok(SharedId { kept })
    }

    /// How many owners this identity has now, including this one.
    pub fn owners(&self) -> usize
        ensures { 0 < result }
    {
        Arc::strong_count(&self.kept)
    }

    /// The position that any owner noted last, or 0. It is a hint where to look first and may be
    /// out of date: no contract uses it.
    pub fn place(&self) -> usize {
        self.kept.place.load(Relaxed)
    }

    /// Notes the position of this identity in a list. Takes no memory.
    pub fn note_place(&self, place: usize) {
        self.kept.place.store(place, Relaxed);
    }

    /// A hash of all that identifies the series: a hint where to look, which no contract uses.
    pub fn hash(&self) -> u64 {
        self.kept.hash
    }

    /// The bytes that say all of the identity, if they are kept.
    fn written(&self) -> Option<&[u8]>
        ensures { IfSome result (λ bytes. (bytes.now ≡ spec.written self.now)
            × IsIdentity self.now) }
    {
        match &self.kept.written {
            Some(written) => Some(written.as_slice()),
            None => None,
        }
    }

    /// Whether both identify the same series: whether all fields are equal. The bytes that say all
    /// of them are compared at once, if they are kept of both.
    pub fn is_same(&self, other: &SharedId) -> bool
        ensures value { result ≡ same_series self.now other.now }
        ensures exact { IsTrue result ↔ (self.now ≡ other.now) }
    {
        match (self.written(), other.written()) {
            (Some(mine), Some(its)) => are_one(mine, its),
            _ => self.as_series().is_same(other.as_series()),
        }
    }
}

/// Whether bytes say one identity.
fn are_one(mine: &[u8], its: &[u8]) -> bool
    ensures { (x y : Identity) → IsIdentity x → IsIdentity y → mine.now ≡ spec.written x
        → its.now ≡ spec.written y → (result ≡ same_series x y) × (IsTrue result ↔ (x ≡ y)) }
{
    mine == its
}

/// A hash of bytes.
fn hash_of(bytes: &[u8]) -> u64 {
    let mut hasher = FoldHasher::default();
    hasher.write(bytes);
    hasher.finish()
}
