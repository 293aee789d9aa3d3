//! A stream of points, and what is known of it.

ghost use Rattle.std.specs.Prelude.{◌≡◌};
ghost use Rattle.std.specs.Option.{ForSome};
ghost use Rattle.json_points.specs.inner.MetricViews.{metric_data, stream_of};

use crate::streams::Metric;
use series_id::SharedId;

/// A metric of a scope, and an identity of its stream, if one is known.
#[derive(Clone, Copy)]
pub struct Stream<'a, 'k> {
    pub metric: Metric<'a>,
    pub known: Option<&'k SharedId>,
    ghost is_known: { ForSome known (λ k. stream_of k.now ≡ metric_data metric) },
}
