//! Whether a part goes beyond the stretch of time of what its book holds pending.
ghost use Rattle.std.specs.Prelude.{◌≡◌, ◌<◌};
ghost use Rattle.std.specs.List.{list_any};
ghost use Rattle.book_desk.specs.Crossings as spec;

use crate::find::find_cell;
use crate::part::Part;
use delta_book::book::Book;
use metric_events::point::Point;
use metric_events::span::Span;
use series_id::SharedId;

/// The stretch of so many nanoseconds in which what ends then counts.
fn stretch_of(stretch: u64, time: u64) -> u64
    requires { 0 < stretch }
    ensures { result ≡ spec.stretch_of stretch time }
{
    time.saturating_sub(1) / stretch
}

/// The point ends in a later stretch than the span, if there is one.
fn is_later_than(stretch: u64, span: Option<Span>, point: &Point) -> bool
    requires { 0 < stretch }
    ensures { result ≡ spec.is_later_than stretch span point.now }
{
    match span {
        None => false,
        Some(span) => stretch_of(stretch, span.end()) < stretch_of(stretch, point.span().end()),
    }
}

/// The span that covers what a book holds pending of a series.
fn pending_span(book: &Book, series: &SharedId) -> Option<Span>
    ensures { result ≡ spec.pending_span book.now series.now }
{
    let cells = book.cells();
    match find_cell(cells, series) {
        None => None,
        Some(i) => cells[i].stored_span(),
    }
}

/// One of these points ends in a later stretch than what the book holds pending of its series.
fn has_later(stretch: u64, book: &Book, points: &[Point]) -> bool
    requires { 0 < stretch }
    ensures { result ≡ list_any (spec.goes_beyond stretch book.now) points.now }
{
    for point in points {
        if is_later_than(stretch, pending_span(book, point.shared_series()), point) {
            return true;
        }
    }
    false
}

/// One of the part's points does.
pub fn crosses(stretch: u64, book: &Book, part: &Option<Part>) -> bool
    requires { 0 < stretch }
    ensures { result ≡ spec.crosses stretch book.now part.now }
{
    match part {
        None => false,
        Some(part) => has_later(stretch, book, part.body.points.as_slice()),
    }
}
