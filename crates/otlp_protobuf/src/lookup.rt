//! Whether an identity that is kept is that of a point.

ghost use Rattle.std.specs.Prelude.{◌≡◌, IsTrue, Option, Some, option_and_then};
ghost use Rattle.series_id.specs.Identity.{IsIdentity};
ghost use Rattle.series_id.specs.Kinds.{IsKind};
ghost use Rattle.serde_json.specs.Data.{Data};
ghost use Rattle.otlp_read.specs.Attributes.{attributes_in};
ghost use Rattle.otlp_read.specs.Streams.{identity_in, series_of};
ghost use Rattle.otlp_protobuf.specs.inner.KindViews.{kind_data};
ghost use Rattle.otlp_protobuf.specs.inner.StreamViews.{scope_data, stream_data};

use crate::kept_series::KeptSeries;
use crate::kind_ref::KindRef;
use crate::streams::{Scope, Stream};

/// Whether a kept series is that of the stream and the kind, where the attributes are its own. The
/// clause is of a series within its limits, as every `SharedId` is.
#[inline(always)]
pub fn is_series(kept: &KeptSeries, stream: &Stream<'_>, kind: &KindRef<'_>) -> bool
    ensures only { (found : Option Data) → IsIdentity kept.now.series
        → attributes_in found ≡ Some kept.now.series.attrs → IsTrue result
        → option_and_then (λ k. series_of (stream_data stream.now) k found) (kind_data kind.now)
        ≡ Some kept.now.series }
{
    if !is_in_stream(kept, stream) {
        return false;
    }
    is_of_kind(kept, kind)
}

/// Whether a kept series is of the kind. The clause is of a kind within its limits.
#[inline(always)]
fn is_of_kind(kept: &KeptSeries, kind: &KindRef<'_>) -> bool
    ensures only { IsKind kept.now.series.kind → IsTrue result
        → kind_data kind.now ≡ Some kept.now.series.kind }
{
    if has_bounds(kept, *kind) {
        return true;
    }
    kind.is_kind(kept.series.as_series().kind())
}

/// Whether a kept series is of the histogram's bounds, byte for byte.
#[inline(always)]
fn has_bounds(kept: &KeptSeries, kind: KindRef<'_>) -> bool
    ensures only { IsTrue result → kind_data kind.entry ≡ Some kept.now.series.kind }
{
    match (kind, &kept.bounds) {
        (KindRef::Histogram { bounds }, Some(own)) => match bounds.spot {
            Some(packed) => is_copy(own, packed),
            None => false,
        },
        _ => false,
    }
}

/// Whether a kept series is one of the stream.
#[inline(always)]
fn is_in_stream(kept: &KeptSeries, stream: &Stream<'_>) -> bool
    ensures only { IsTrue result → identity_in (stream_data stream.now) kept.now.series.kind
        kept.now.series.attrs ≡ kept.now.series }
{
    let series = kept.series.as_series();
    series.name().as_str() == stream.name
        && series.unit().as_str() == stream.unit
        && is_in_scope(kept, &stream.scope)
}

/// Whether a kept series is one of the scope.
#[inline(always)]
fn is_in_scope(kept: &KeptSeries, scope: &Scope<'_>) -> bool
    ensures only { IsTrue result → scope_data scope.now ≡ record {
      resource = kept.now.series.resource;
      name = kept.now.series.scope_name;
      version = kept.now.series.scope_version;
      attributes = kept.now.series.scope_attrs;
    } }
{
    let series = kept.series.as_series();
    series.scope_name().as_str() == scope.name
        && series.scope_version().as_str() == scope.version
        && series.scope_attrs().is_same(scope.attributes)
        && kept.resource.is_same(scope.resource)
}

/// Whether a copy is of this message.
#[inline(always)]
pub fn is_copy(copy: &Vec<u8>, message: &[u8]) -> bool
    ensures only { IsTrue result → copy.now.items ≡ message.now }
{
    copy.as_slice() == message
}
