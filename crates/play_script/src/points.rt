//! The points of an `admit` line: four words each.

ghost use Rattle.std.specs.Prelude.{◌≡◌, ◌<◌, ◌⊎◌, Some, None, MatchOption, IfOk, IfErr, OnOk};
ghost use Rattle.std.specs.Prelude.{OnErr, length, map, true, is_some};
ghost use Rattle.metric_events.specs.Senders.{is_sender_name};
ghost use Rattle.play_script.specs.Pieces.{words};
ghost use Rattle.play_script.specs.PointLines as spec;
ghost use Rattle.play_script.specs.PointLines.{fault_of, first_fault, point_of};
ghost use Rattle.play_script.specs.PointLines.{point_words, with_point};
ghost use Rattle.play_script.specs.inner.Views.{words_of, words_of_each, points_after, AreRead};

use crate::numbers::{number, value};
use crate::pieces::cut_word;
use crate::point_line::PointLine;
use metric_events::point::{Point, PointFault};
use metric_events::points::Points;
use metric_events::sender_name::is_sender_name;
use series_id::{AttrSet, Kind, SeriesId, Text};
use std::alloc::{AllocError, Global};

/// A point, and the words after it, where there are more.
#[derive(Drop)]
struct NextPoint<'a> {
    point: PointLine<'a>,
    rest: Option<&'a [u8]>,
}

/// The point in the first four words, where they are one.
fn next_point(text: &[u8]) -> Option<NextPoint<'_>>
    ensures point { MatchOption result (point_words (words text.now) ≡ None)
        (λ next. point_words (words text.now) ≡ with_point (Some (words_of next.point))
        (points_after next.rest)) }
    ensures short { MatchOption result (Unit {0}) (λ next. MatchOption next.rest (Unit {0})
        (λ rest. length rest.now < length text.now)) }
{
    let name = cut_word(text);
    let start = cut_word(name.rest?);
    let end = cut_word(start.rest?);
    let last = cut_word(end.rest?);
    if !is_sender_name(name.first) {
        return None;
    }
    let point = PointLine {
        name: name.first,
        start: number(start.first)?,
        end: number(end.first)?,
        value: value(last.first)?,
    };
    Some(NextPoint {
        point,
        rest: last.rest,
    })
}

/// The points of the words, or None where the words are no points. Out of memory is reported only
/// where all the words are points.
pub fn read_points<'a>(
    alloc: Global,
    text: &'a [u8],
) -> Result<Option<Vec<PointLine<'a>>>, AllocError>
    ensures points { IfOk result (λ points. AreRead points (point_words (words text.now))) }
    ensures memory { OnErr result (is_some (point_words (words text.now)) ≡ true) }
{
    let mut points = Vec::new(alloc);
    let mut refused = false;
    let mut left = text;
    loop {
        let Some(next) = next_point(left) else {
            return Ok(None);
        };
        if !refused {
            refused = points.push(next.point).is_err();
        }
        match next.rest {
            Some(rest) => left = rest,
            None if refused => return Err(AllocError),
            None => return Ok(Some(points)),
        }
    }
}

/// The text of a name.
fn text_of(alloc: Global, name: &[u8]) -> Result<Text, AllocError>
    requires { is_sender_name name.now ≡ true }
    ensures { IfOk result (λ text. text ≡ name.now) }
{
    match std::str::from_utf8(name) {
        Ok(text) => Ok(Text::new(String::from_str(alloc, text)?)),
        Err(_) => unreachable!(),
    }
}

/// The series of a name: the plain sum with this metric name, all else empty.
fn series_named(alloc: Global, name: &[u8]) -> Result<SeriesId, AllocError>
    requires { is_sender_name name.now ≡ true }
    ensures { IfOk result (λ series. series ≡ spec.series_named name.now) }
{
    let name = text_of(alloc, name)?;
    let scope_name = Text::new(String::new(alloc));
    let scope_version = Text::new(String::new(alloc));
    let unit = Text::new(String::new(alloc));
    let kind = Kind::Sum { monotonic: false };
    match SeriesId::new(
        AttrSet::empty(alloc),
        scope_name,
        scope_version,
        AttrSet::empty(alloc),
        name,
        unit,
        kind,
        AttrSet::empty(alloc),
    ) {
        Ok(series) => Ok(series),
        Err(_) => unreachable!(),
    }
}

/// The point of four words.
fn make_point(alloc: Global, line: PointLine<'_>) -> Result<Point, PointFault>
    ensures value { IfOk result (λ point. point ≡ point_of (words_of line.entry)) }
    ensures none { OnOk result (fault_of (words_of line.entry) ≡ None) }
    ensures fault { IfErr result (λ fault. (fault ≡ PointFault.NoMemory) ⊎
        (fault_of (words_of line.entry) ≡ Some fault)) }
{
    match series_named(alloc, line.name) {
        Ok(series) => Point::sum(alloc, series, line.start, line.end, line.value),
        Err(_) => Err(PointFault::NoMemory),
    }
}

/// The points of a line, or the fault of the first that can't be made.
pub fn make_points(alloc: Global, lines: &[PointLine<'_>]) -> Result<Points, PointFault>
    ensures value { IfOk result (λ points. points ≡ map point_of (words_of_each lines.now)) }
    ensures none { OnOk result (first_fault (words_of_each lines.now) ≡ None) }
    ensures fault { IfErr result (λ fault. (fault ≡ PointFault.NoMemory) ⊎
        (first_fault (words_of_each lines.now) ≡ Some fault)) }
{
    let mut points = Points::new(alloc);
    for line in lines {
        let point = make_point(alloc, *line)?;
        let Ok(()) = points.push(point) else {
            return Err(PointFault::NoMemory);
        };
    }
    Ok(points)
}
