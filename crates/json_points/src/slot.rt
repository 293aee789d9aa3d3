//! An identity that a cache keeps.

ghost use Rattle.std.specs.Prelude.{◌≡◌};
ghost use Rattle.std.specs.Option.{ForSome};
ghost use Rattle.json_points.specs.inner.MetricViews.{stream_of};

use series_id::SharedId;
use std::alloc::AllocError;

/// An identity, and one that stands for its stream, if it is known: for most identities of a stream
/// the same one.
#[derive(Drop)]
pub struct Slot {
    pub series: SharedId,
    pub stream: Option<SharedId>,
    ghost is_its: { ForSome stream (λ t. stream_of t ≡ stream_of series) },
}

impl Slot {
    /// An identity that stands for its stream itself.
    pub fn new(series: &SharedId) -> Result<Slot, AllocError> {
        let series = series.share()?;
        Ok(Slot {
            series,
            stream: None,
        })
    }

    /// The identity that stands for the stream.
    pub fn stream(&self) -> &SharedId
        ensures { stream_of result.now ≡ stream_of self.now.series }
    {
        match &self.stream {
            Some(stream) => stream,
            None => &self.series,
        }
    }
}
