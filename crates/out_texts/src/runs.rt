//! Finds runs of points that share an element.

ghost use Rattle.std.specs.Prelude.{◌≡◌, ◌≤◌, length};
ghost use Rattle.out_texts.specs.inner.Groups.{run};
ghost use Rattle.out_texts.specs.Sharing.{same};

use crate::level::Level;
use delta_book::flush::FlushPoint;

/// How many of the other points share the element of the first one, counted up to the first that
/// does not.
pub(crate) fn run(level: Level, first: &FlushPoint, others: &[FlushPoint]) -> usize
    ensures few { result ≤ length others.now }
    ensures value { result ≡ run (same level) first.now others.now }
{
    let mut last = first;
    let mut count = 0;
    for point in others {
        if !level.is_shared(last.series(), point.series()) {
            return count;
        }
        last = point;
        count += 1;
    }
    count
}
