//! Builds the points of a flush as JSON.

ghost use Rattle.out_texts.specs.Points as spec;

use crate::histogram_points::histogram_point_value;
use crate::sum_points::sum_point_value;
use crate::values::HasValue;
use delta_book::flush::FlushPoint;
use serde_json::Value;
use series_id::Kind;
use std::alloc::{AllocError, Global};

impl HasValue for FlushPoint {
    ghost value_of = { spec.point_value };

    /// A point of a sum or of a histogram.
    #[tactic(auto, unfolding(crate::specs::Points::point_value))]
    fn value(&self, alloc: Global) -> Result<Value, AllocError> {
        match self.series().kind() {
            Kind::Sum { .. } => sum_point_value(alloc, self),
            Kind::Histogram { bounds } => histogram_point_value(alloc, bounds.as_slice(), self),
        }
    }
}
