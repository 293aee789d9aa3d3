//! The value behind a `SharedId`.

ghost use Rattle.std.specs.Prelude.{◌≡◌, IfOk, IfSome};

use crate::series::SeriesId;
use std::alloc::{AllocError, Global};
use std::sync::atomic::AtomicUsize;

/// The most bytes that are kept of an identity: a long resource may be that of all series.
const MOST_WRITTEN: usize = 512;

/// An identity, the bytes that say all of it if they are few, a hash of these, and the position at
/// which it was last found in a list.
#[derive(Drop)]
pub(crate) struct SharedParts {
    pub(crate) series: SeriesId,
    pub(crate) written: Option<Vec<u8>>,
    pub(crate) hash: u64,
    pub(crate) place: AtomicUsize,
}

/// A copy of the bytes, if they are few, with no more room than it takes.
pub(crate) fn if_few(alloc: Global, written: &[u8]) -> Result<Option<Vec<u8>>, AllocError>
    ensures { IfOk result (λ few. IfSome few (λ kept. kept.items ≡ written.now)) }
{
    if written.len() > MOST_WRITTEN {
        return Ok(None);
    }
    let mut kept = Vec::with_capacity(alloc, written.len())?;
    kept.extend_from_slice(written)?;
    Ok(Some(kept))
}

/// The identity.
pub(crate) fn series_of(parts: SharedParts) -> SeriesId
    ensures { result ≡ parts.series }
{
    parts.series
}
