//! Gathers what a histogram's point says, in one pass over its fields.

ghost use Rattle.std.specs.Prelude.{◌≡◌, ◌++◌, [], ℕ, IsTrue, List};
ghost use Rattle.otlp_protobuf.specs.Wire.{fields};
ghost use Rattle.otlp_protobuf.specs.Fields.{contents, gathered, numbers, numbers_at, packed};
ghost use Rattle.otlp_protobuf.specs.Points.{no_histogram, take_histogram};
ghost use Rattle.otlp_protobuf.specs.inner.RunViews.{messages_of};
ghost use Rattle.otlp_protobuf.specs.inner.SpotViews.{IsSpot};
ghost use Rattle.otlp_protobuf.specs.inner.Views.{field_data};

use crate::fields::{Field, Fields};
use crate::histogram_point::HistogramPoint;
use crate::known_run::KnownRun;
use crate::others::{Seen, is_run, next_other};
use crate::scan::Gathered;
use crate::wire::Payload;

/// The numbers of a point's buckets, bounds and attributes.
pub const BUCKETS: u32 = 6;

pub const BOUNDS: u32 = 7;

pub const ATTRIBUTES: u32 = 9;

/// What a point says; whether its attributes are those that are known; and its buckets and its
/// bounds, each where one field has them all.
#[inline(always)]
pub fn gather_histogram<'a>(
    bytes: &'a [u8],
    known: Option<&KnownRun>,
) -> (HistogramPoint, bool, Option<&'a [u8]>, Option<&'a [u8]>)
    ensures said { result.0 ≡ gathered take_histogram no_histogram (fields bytes.now) }
    ensures known { IsTrue result.1
        → messages_of known.entry ≡ contents ATTRIBUTES (fields bytes.now) }
    ensures buckets { IsSpot result.2 [] (numbers BUCKETS (fields bytes.now)) }
    ensures bounds { IsSpot result.3 [] (numbers BOUNDS (fields bytes.now)) }
{
    let mut found = HistogramPoint::new();
    let mut buckets: Option<&'a [u8]> = Some(&[]);
    let mut bounds: Option<&'a [u8]> = Some(&[]);
    let mut rest = Fields::of(bytes);
    let mut seen = Seen::None;
    while let Some(field) = next_other(&mut rest, &mut seen, ATTRIBUTES, known) {
        found = found.take(field);
        buckets = put_numbers(BUCKETS, buckets, field);
        bounds = put_numbers(BOUNDS, bounds, field);
    }
    (found, is_run(seen), buckets, bounds)
}

/// Where the numbers are after a field: still in one field, or `None`.
#[inline(always)]
fn put_numbers<'a>(number: u32, spot: Option<&'a [u8]>, field: Field<'a>) -> Option<&'a [u8]>
    ensures { (after all : List ℕ) → IsSpot spot.entry
        (numbers_at number (field_data field.entry) ++ after) all → IsSpot result after all }
{
    if field.number != number {
        return spot;
    }
    match (spot, field.payload) {
        (Some(before), Payload::Bytes(content)) => put_first(before, content),
        _ => None,
    }
}

/// Packed numbers, if there are none before them.
#[inline(always)]
fn put_first<'a>(before: &[u8], content: &'a [u8]) -> Option<&'a [u8]>
    ensures { (after all : List ℕ) → packed before.now ++ (packed content.now ++ after) ≡ all
        → IsSpot result after all }
{
    if before.len() > 0 {
        return None;
    }
    Some(content)
}
