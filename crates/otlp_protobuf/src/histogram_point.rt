//! What the bytes of a histogram's point say (`HistogramDataPoint`).

ghost use Rattle.std.specs.Prelude.{◌≡◌};
ghost use Rattle.otlp_protobuf.specs.Points.{take_histogram, no_histogram};

use crate::fields::Field;
use crate::scan::{Gathered, bits};

/// A point without its buckets, bounds and attributes: times in nanoseconds, its count, the bits of
/// its sum, and its flags.
#[derive(Clone, Copy)]
pub struct HistogramPoint {
    pub start: Option<u64>,
    pub end: Option<u64>,
    pub count: Option<u64>,
    pub total: Option<u64>,
    pub flags: Option<u32>,
}

impl HistogramPoint {
    /// A point that says nothing.
    pub fn new() -> HistogramPoint
        ensures { result ≡ no_histogram }
    {
        HistogramPoint {
            start: None,
            end: None,
            count: None,
            total: None,
            flags: None,
        }
    }
}

impl Gathered for HistogramPoint {
    ghost takes = { take_histogram };

    #[tactic(auto, unfolding(crate::specs::Points::take_histogram))]
    fn take(self, field: Field<'_>) -> HistogramPoint {
        let bits = bits(field.payload);
        let mut point = self;
        match field.number {
            2 => point.start = Some(bits),
            3 => point.end = Some(bits),
            4 => point.count = Some(bits),
            5 => point.total = Some(bits),
            10 => point.flags = Some((bits % 4_294_967_296) as u32),
            _ => {}
        }
        point
    }
}
