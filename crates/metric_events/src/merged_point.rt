ghost use Rattle.std.specs.Prelude.{◌≡◌, ◌↔◌, IsTrue, IfOk};
ghost use Rattle.metric_events.specs.inner.Equal.{same_point};

use crate::row::Row;
use crate::span::Span;
use series_id::{SeriesId, SharedId};
use std::alloc::{AllocError, Global};
use std::marker::Model;

/// Points of a series, merged: their covering span, and the sum of their rows. The row has the
/// length of its series' kind, is within the limits, and subtracts nothing if the sum is
/// monotonic. One point alone is a merged point too.
pub struct MergedPoint {
    series: SharedId,
    span: Span,
    row: Row,
}

impl Model for MergedPoint {
    ghost use Rattle.metric_events.specs.DataPoint.{DataPoint, IsMerged};

    ghost Value = { DataPoint };

    ghost view = { λ p. record { series = p.series; span = p.span; row = p.row } };

    ghost invariant = { λ p. IsMerged (record { series = p.series; span = p.span; row = p.row }) };
}

impl Drop for MergedPoint {
    fn drop(self) {
        let MergedPoint {
            series: _,
            span: _,
            row: _,
        } = self;
    }
}

impl MergedPoint {
    ghost use Rattle.metric_events.specs.DataPoint.{IsMerged};

    /// The merged point with these parts. Takes no memory.
    pub fn new(series: SharedId, span: Span, row: Row) -> MergedPoint
        requires { IsMerged (record { series = series; span = span; row = row }) }
        ensures { result ≡ record { series = series; span = span; row = row } }
    {
        MergedPoint { series, span, row }
    }

    /// The series of the points.
    pub fn series(&self) -> &SeriesId
        ensures { result.now ≡ self.now.series }
    {
        self.series.as_series()
    }

    /// The same, as the shared identity.
    pub fn shared_series(&self) -> &SharedId
        ensures { result.now ≡ self.now.series }
    {
        &self.series
    }

    /// The covering span, in nanoseconds: from the first start to the last end.
    pub fn span(&self) -> Span
        ensures { result ≡ self.now.span }
    {
        self.span
    }

    /// The words of the row. There are as many as the series' kind has, each within its limit.
    pub fn row(&self) -> &[u64]
        ensures value { result.now ≡ self.now.row }
        ensures made { IsMerged self.now }
    {
        self.row.as_slice()
    }

    /// Whether both have the same series, span and row.
    pub fn is_same(&self, other: &MergedPoint) -> bool
        ensures { IsTrue result ↔ (self.now ≡ other.now) }
    {
        self.has_parts_of(other)
    }

    fn has_parts_of(&self, other: &MergedPoint) -> bool
        ensures { result ≡ same_point self.now other.now }
    {
        self.series.is_same(&other.series)
            && self.span.start() == other.span.start()
            && self.span.end() == other.span.end()
            && self.row.as_slice() == other.row.as_slice()
    }

    /// An equal merged point, which shares the identity. Takes memory for the row alone, and fails
    /// only if that allocation fails.
    pub fn copy(&self, alloc: Global) -> Result<MergedPoint, AllocError>
        ensures { IfOk result (λ copy. copy ≡ self.now) }
    {
        let series = self.series.share()?;
        let row = self.row.copy(alloc)?;
        Ok(MergedPoint {
            series,
            span: self.span,
            row,
        })
    }
}
