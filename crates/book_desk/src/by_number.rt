//! Points by number: each is said in words of 64 bits.
ghost use Rattle.std.specs.Prelude.{◌≡◌, ◌≢◌, ◌+◌, ◌<◌, ◌≤◌, ◌^◌, drop, length, Some, None};
ghost use Rattle.std.specs.Prelude.{IfOk, IfErr, OnOk, OnErr};
ghost use Rattle.std.specs.List.{All};
ghost use Rattle.std.specs.Result.{result_ok};
ghost use Rattle.metric_events.specs.PointFaults.{IsSum, IsHistogram};
ghost use Rattle.otlp_read.specs.Tallies.{Tally};
ghost use Rattle.book_desk.specs.Drafts.{HasRead};
ghost use Rattle.book_desk.specs.Splits.{IsFrom};
ghost use Rattle.book_desk.specs.Words as spec;
ghost use Rattle.book_desk.specs.Words.{said, points_of};
ghost use Rattle.book_desk.specs.declared.by_number.PutFault.TheVariants.{NoMemory, NoSuch};

use crate::draft::Draft;
use crate::names::Names;
use crate::window::Window;
use metric_events::point::{Point, PointFault};
use metric_events::sender_name::SenderName;
use series_id::{Kind, SharedId};
use std::alloc::{AllocError, Global};

/// Why points by number are not put.
#[derive(Clone, Copy, Debug, PartialEq, Eq)]
pub enum PutFault {
    /// The sender has no name of 1 to 64 bytes of `A-Z a-z 0-9 . _ -`.
    BadSender,
    /// A number has no name, or the words end within a point.
    NoSuch,
    NoMemory,
}

impl From<AllocError> for PutFault {
    ghost from_gives = { λ _ fault. fault ≡ NoMemory };

    fn from(_error: AllocError) -> PutFault {
        PutFault::NoMemory
    }
}

/// How many words come after the number of a point of this kind.
fn width(kind: &Kind) -> usize
    ensures { result ≡ spec.width kind.now }
{
    match kind {
        Kind::Sum { .. } => 3,
        Kind::Histogram { bounds } => bounds.as_slice().len() + 6,
    }
}

/// The point of a sum that these words say, or none if it breaks a rule of points.
fn sum_said(series: SharedId, words: &[u64]) -> Option<Point>
    requires kind { IsSum series.kind }
    requires words { length words.now ≡ 3 }
    ensures { result ≡ spec.sum_said series words.now }
{
    Point::shared_sum(series, words[0], words[1], words[2].cast_signed()).ok()
}

/// The point, or none if it breaks a rule of points.
fn allowed(point: Result<Point, PointFault>) -> Result<Option<Point>, AllocError>
    ensures point { IfOk result (λ o. o ≡ result_ok point) }
    ensures ok { OnOk result (point ≢ Err PointFault.NoMemory) }
{
    match point {
        Ok(point) => Ok(Some(point)),
        Err(PointFault::NoMemory) => Err(AllocError),
        Err(_) => Ok(None),
    }
}

/// The same of a histogram.
fn histogram_said(
    alloc: Global,
    series: SharedId,
    words: &[u64],
) -> Result<Option<Point>, AllocError>
    requires kind { IsHistogram series.kind }
    requires words { 6 ≤ length words.now }
    ensures { IfOk result (λ o. o ≡ spec.histogram_said series words.now) }
{
    let sum = if words[3] == 0 { None } else { Some(words[4]) };
    let buckets = words[5..].to_vec(alloc)?;
    allowed(Point::shared_histogram(alloc, series, words[0], words[1], words[2], sum, buckets))
}

/// The point of a series that these words say after its number.
fn point_said(alloc: Global, series: &SharedId, words: &[u64]) -> Result<Option<Point>, AllocError>
    requires { length words.now ≡ spec.width series.now.kind }
    ensures { IfOk result (λ o. o ≡ spec.point_said series.now words.now) }
{
    let shared = series.share()?;
    match series.as_series().kind() {
        Kind::Sum { .. } => Ok(sum_said(shared, words)),
        Kind::Histogram { .. } => histogram_said(alloc, shared, words),
    }
}

/// Adds the point that comes next in these words: how many of them say it.
fn add_next(draft: &mut Draft, names: &Names, left: &[u64]) -> Result<usize, PutFault>
    requires left { 0 < length left.now }
    requires some { 0 < length draft.old.parts.items }
    requires few { draft.old.counts.points + draft.old.counts.outside + 1 < 2 ^ 64 }
    requires from { All (IsFrom draft.old.sender) draft.old.parts.items }
    ensures read { IfOk result (λ n. (t : Tally) → HasRead draft.old t → (u : Tally)
        × (said names.now 0 left.now t ≡ said names.now 0 (drop n left.now) u)
        × HasRead draft.new u) }
    ensures many { IfOk result (λ n. (0 < n) × (n ≤ length left.now)) }
    ensures none { result ≡ Err NoSuch → (t : Tally) → said names.now 0 left.now t ≡ None }
    ensures named { result ≢ Err PutFault.BadSender }
    ensures from { OnOk result (All (IsFrom draft.new.sender) draft.new.parts.items) }
    ensures sender { draft.new.sender ≡ draft.old.sender }
    ensures window { draft.new.window ≡ draft.old.window }
    ensures books { length draft.new.parts.items ≡ length draft.old.parts.items }
    ensures more { draft.new.counts.points + draft.new.counts.outside
        ≤ draft.old.counts.points + draft.old.counts.outside + 1 }
{
    let Some(name) = names.get(left[0]) else {
        return Err(PutFault::NoSuch);
    };
    let words = width(name.series().as_series().kind());
    let (_, rest) = left.split_at(1);
    if rest.len() < words {
        return Err(PutFault::NoSuch);
    }
    let (said, _) = rest.split_at(words);
    let point = point_said(draft.alloc, name.series(), said)?;
    draft.add(name.home(draft.books()), point)?;
    Ok(words + 1)
}

/// The post of the points that these words say, in order.
pub fn draft_said(
    alloc: Global,
    sender: SenderName,
    names: &Names,
    words: &[u64],
    books: usize,
    window: Window,
) -> Result<Draft, PutFault>
    requires { 0 < books }
    ensures read { IfOk result (λ d. (t : Tally) × (points_of names.now words.now ≡ Some t)
        × HasRead d t) }
    ensures none { result ≡ Err NoSuch → points_of names.now words.now ≡ None }
    ensures named { result ≢ Err PutFault.BadSender }
    ensures from { IfOk result (λ d. All (IsFrom d.sender) d.parts.items) }
    ensures sender { IfOk result (λ d. d.sender ≡ sender) }
    ensures window { IfOk result (λ d. d.window ≡ window) }
    ensures books { IfOk result (λ d. length d.parts.items ≡ books) }
{
    let mut draft = Draft::new(alloc, sender, books, window, words.len() / 4)?;
    let mut left = words;
    while !left.is_empty() {
        let read = match add_next(&mut draft, names, left) {
            Ok(read) => read,
            Err(fault) => return Err(fault),
        };
        let (_, after) = left.split_at(read);
        left = after;
    }
    Ok(draft)
}
