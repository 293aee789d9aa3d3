//! When the points of a post end.
ghost use Rattle.std.specs.Prelude.{◌≡◌, None, fold};
ghost use Rattle.book_desk.specs.inner.EndRanges as spec;

use crate::part::Part;
use metric_events::point::Point;

/// The least of the times at which points end, and the greatest; in nanoseconds.
#[derive(Clone, Copy, Debug, PartialEq, Eq)]
pub struct EndRange {
    pub least: u64,
    pub greatest: u64,
}

fn with_end(range: Option<EndRange>, end: u64) -> Option<EndRange>
    ensures { result ≡ spec.with_end range end }
{
    match range {
        None => Some(EndRange {
            least: end,
            greatest: end,
        }),
        Some(range) => Some(EndRange {
            least: range.least.min(end),
            greatest: range.greatest.max(end),
        }),
    }
}

#[tactic(auto, using(std::proofs::lemmas::List::Sums::fold_more))]
fn with_points(range: Option<EndRange>, points: &[Point]) -> Option<EndRange>
    ensures { result ≡ fold spec.with_point range points.now }
{
    let mut all = range;
    for point in points {
        all = with_end(all, point.span().end());
    }
    all
}

fn with_part(range: Option<EndRange>, part: &Option<Part>) -> Option<EndRange>
    ensures { result ≡ spec.with_part range part.now }
{
    match part {
        None => range,
        Some(part) => with_points(range, part.body.points.as_slice()),
    }
}

/// The range of the ends of all points; none where there are no points.
#[tactic(auto, using(std::proofs::lemmas::List::Sums::fold_more))]
pub(crate) fn end_range(parts: &[Option<Part>]) -> Option<EndRange>
    ensures { result ≡ fold spec.with_part None parts.now }
{
    let mut all = None;
    for part in parts {
        all = with_part(all, part);
    }
    all
}
