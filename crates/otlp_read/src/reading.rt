//! The result of reading a request.

use metric_events::points::Points;

/// The content of a request: its points of the profile, the delta sums and histograms that this
/// gateway stores, and two counts.
#[derive(Drop)]
pub struct Reading {
    /// The points of the profile, in the order of the document.
    pub points: Points,
    /// How many points are foreign: all others. A sender gets this count as `rejectedDataPoints`
    /// (OTLP, "Partial Success").
    pub foreign: u64,
    /// How many metrics there are.
    pub metrics: u64,
}
