//! An identity that a reader keeps, and what said it.

ghost use Rattle.std.specs.Prelude.{◌≡◌, Some};
ghost use Rattle.std.specs.Option.{ForSome};
ghost use Rattle.otlp_protobuf.specs.inner.KindViews.{says_kind};
ghost use Rattle.otlp_protobuf.specs.inner.RunViews.{run_messages};
ghost use Rattle.otlp_protobuf.specs.inner.Sets.{set_said};

use crate::known_run::KnownRun;
use crate::known_set::KnownSet;
use series_id::SharedId;

/// An identity, with its resource and the bytes of the messages that say its attributes.
#[derive(Drop)]
pub struct KeptSeries {
    pub series: SharedId,
    pub resource: KnownSet,
    pub run: KnownRun,
    /// The bounds of a histogram, packed, if one field had them all.
    pub bounds: Option<Vec<u8>>,
    ghost is_of_resource: { resource.set ≡ series.resource },
    ghost has_attributes: { set_said (run_messages run) ≡ Some series.attrs },
    ghost has_bounds: { ForSome bounds (λ b. says_kind b.items series.kind) },
}
