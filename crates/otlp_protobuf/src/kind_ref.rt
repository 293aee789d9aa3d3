//! The kind of a point's series, where it is in the bytes.

ghost use Rattle.std.specs.Prelude.{◌≡◌, IfOk, IsTrue, Some};
ghost use Rattle.series_id.specs.Kinds.{IsKind};
ghost use Rattle.otlp_protobuf.specs.inner.KindViews.{kind_data};

use crate::number_list::NumberList;
use crate::numbers::{Numbers, are_bounds, numbers_in};
use series_id::Kind;
use std::alloc::{AllocError, Global};

/// The kind of a point's series.
#[derive(Clone, Copy)]
pub enum KindRef<'a> {
    Sum { monotonic: bool },
    /// A histogram with these bounds.
    Histogram { bounds: NumberList<'a> },
}

impl<'a> KindRef<'a> {
    /// The kind; `None` if the bounds are none.
    pub fn to_kind(self, alloc: Global) -> Result<Option<Kind>, AllocError>
        ensures { IfOk result (λ o. o ≡ kind_data self.entry) }
    {
        match self {
            KindRef::Sum { monotonic } => Ok(Some(Kind::Sum { monotonic })),
            KindRef::Histogram { bounds } => match numbers_in(alloc, bounds)? {
                Some(found) => Ok(Kind::histogram(found).ok()),
                None => Ok(None),
            },
        }
    }

    /// Whether it is this kind. The clause is of a kind within its limits.
    pub fn is_kind(self, kind: &Kind) -> bool
        ensures only { IsKind kind.now → IsTrue result → kind_data self.entry ≡ Some kind.now }
    {
        match (self, kind) {
            (KindRef::Sum { monotonic }, Kind::Sum { monotonic: its }) => monotonic == *its,
            (KindRef::Histogram { bounds }, Kind::Histogram { bounds: its }) => {
                are_bounds(Numbers::of(bounds), its.as_slice())
            }
            _ => false,
        }
    }
}
