ghost use Rattle.std.specs.Prelude.{◌≡◌, ◌≤◌, ◌<◌, ◌+◌, ◌-◌, [], length, drop, take, max};
ghost use Rattle.std.specs.Prelude.{vec_capacity, vec_len, OnOk, OnErr, IsOk};
ghost use Rattle.std.specs.List.{list_any};
ghost use Rattle.std.specs.List.Sorted.{IsNonDecreasingBy};
ghost use Rattle.series_cell.specs.Spans.{is_span_of, place_of, end_of_spans, hull_of};
ghost use Rattle.series_cell.specs.Spans.{joined_spans, AreInOrder};

use metric_events::span::Span;
use std::alloc::AllocError;

/// Room for so many spans is made at least, where room is made.
pub const LEAST_ROOM: usize = 1;

/// Room for so many spans may be kept where there is none: what the first room has.
pub const KEPT_ROOM: usize = 1;

/// The span of a point that is pending or in flight, and its batch.
#[derive(Clone, Copy, Drop)]
pub struct BatchSpan {
    /// The span, in nanoseconds.
    pub span: Span,
    /// The number of the point's batch; 0 for what a round began with.
    pub batch: u64,
}

/// The spans from an index on.
pub fn spans_from(spans: &[BatchSpan], from: usize) -> &[BatchSpan]
    requires { from ≤ length spans.now }
    ensures { result.now ≡ drop from spans.now }
{
    &spans[from..]
}

/// The spans before an index.
pub fn spans_to(spans: &[BatchSpan], to: usize) -> &[BatchSpan]
    requires { to ≤ length spans.now }
    ensures { result.now ≡ take to spans.now }
{
    &spans[..to]
}

/// Whether one of them is of this batch. It looks backwards: a batch that is undone came late.
pub fn has_batch(spans: &[BatchSpan], batch: u64) -> bool
    ensures { result ≡ list_any (is_span_of batch) spans.now }
{
    spans.iter().rev().any(|span| span.batch == batch)
}

/// The index of the span with this start (in nanoseconds). Each span ends before the next starts.
pub fn find_start(spans: &[BatchSpan], start: u64) -> usize
    ensures value { IsNonDecreasingBy (λ m. m.span.end) spans.now
        → result ≡ place_of start spans.now }
    ensures inside { result ≤ length spans.now }
{
    spans.partition_point(|of_batch| of_batch.span.end() <= start)
}

/// The end of the last span in nanoseconds, or `before` if there is none.
pub fn end_or(spans: &[BatchSpan], before: u64) -> u64
    ensures { result ≡ end_of_spans before spans.now }
{
    if spans.is_empty() {
        return before;
    }
    spans[spans.len() - 1].span.end()
}

/// The covering span of spans in order of time: from the first start to the last end.
pub fn hull(spans: &[BatchSpan]) -> Option<Span>
    ensures { AreInOrder spans.now → result ≡ hull_of spans.now }
{
    if spans.is_empty() {
        return None;
    }
    let first = spans[0].span;
    let last = spans[spans.len() - 1].span;
    Some(first.hull(&last))
}

/// Makes room for one more span where there is none: for as many as there are, so that room is
/// made seldom.
pub fn make_room(spans: &mut Vec<BatchSpan>) -> Result<(), AllocError>
    ensures items { spans.new.items ≡ spans.old.items }
    ensures len { vec_len spans.new ≡ vec_len spans.old }
    ensures room { OnOk result (vec_len spans.new < vec_capacity spans.new) }
    ensures succeeds { vec_len spans.old < vec_capacity spans.old → IsOk result }
    ensures less { vec_capacity spans.old ≤ vec_capacity spans.new }
    ensures most { vec_capacity spans.new ≤ max (vec_capacity spans.old) (vec_len spans.old
        + max (vec_len spans.old) LEAST_ROOM) }
    ensures err { OnErr result (vec_capacity spans.new ≡ vec_capacity spans.old) }
{
    let len = spans.len();
    if len < spans.capacity() {
        return Ok(());
    }
    spans.reserve_exact(len.max(LEAST_ROOM))
}

/// Gives room back: where no span is left, all that is more than `KEPT_ROOM`; else what is more
/// than that and at least four times what the spans take, unless the allocator makes no block
/// smaller.
pub fn give_back_room(spans: &mut Vec<BatchSpan>)
    ensures items { spans.new.items ≡ spans.old.items }
    ensures len { vec_len spans.new ≡ vec_len spans.old }
    ensures less { vec_capacity spans.new ≤ vec_capacity spans.old }
    ensures lean { spans.new.items ≡ [] → vec_capacity spans.new - vec_len spans.new ≤ KEPT_ROOM }
{
    let len = spans.len();
    let spare = spans.capacity() - len;
    if spare > KEPT_ROOM && spare / 4 >= len {
        spans.shrink_to_fit();
    }
}

/// Removes the first `count` spans. Takes no memory.
pub fn drop_first(spans: &mut Vec<BatchSpan>, count: usize)
    requires { count ≤ vec_len spans.old }
    ensures items { spans.new.items ≡ drop count spans.old.items }
    ensures room { vec_capacity spans.old - vec_len spans.old
        ≤ vec_capacity spans.new - vec_len spans.new }
{
    spans.rotate_left(count);
    spans.truncate(spans.len() - count);
}

/// Replaces spans in order of time by their covering span, of no batch, if there are any. Takes no
/// memory.
pub fn join_all(spans: &mut Vec<BatchSpan>)
    ensures items { AreInOrder spans.old.items
        → spans.new.items ≡ joined_spans (hull_of spans.old.items) }
    ensures room { vec_capacity spans.old - vec_len spans.old
        ≤ vec_capacity spans.new - vec_len spans.new }
{
    match hull(spans.as_slice()) {
        None => {}
        Some(span) => {
            spans.truncate(1);
            spans[0] = BatchSpan { span, batch: 0 };
        }
    }
}
