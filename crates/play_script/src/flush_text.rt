//! The text of a flush and of its points.

ghost use Rattle.std.specs.Prelude.{◌≡◌, ◌++◌, OnOk};
ghost use Rattle.play_script.specs.Replies as spec;

use delta_book::flush::{Flush, FlushPoint};
use metric_events::span::Span;
use out_texts::{put_number, put_row, put_series_name};
use std::alloc::AllocError;

#[tactic(auto, unfolding(crate::specs::Replies::span_text))]
fn put_span(out: &mut Vec<u8>, span: Span) -> Result<(), AllocError>
    ensures { OnOk result (out.new.items ≡ out.old.items ++ spec.span_text span) }
{
    out.extend_from_slice(b" (")?;
    put_number(out, span.start())?;
    out.extend_from_slice(b",")?;
    put_number(out, span.end())?;
    out.extend_from_slice(b"] ")
}

#[tactic(auto, unfolding(crate::specs::Replies::point_line))]
fn put_point(out: &mut Vec<u8>, point: &FlushPoint) -> Result<(), AllocError>
    ensures { OnOk result (out.new.items ≡ out.old.items ++ spec.point_line point.now) }
{
    out.extend_from_slice(b"point ")?;
    put_series_name(out, point.series())?;
    put_span(out, point.span())?;
    put_row(out, point.row())?;
    out.extend_from_slice(b"\n")
}

/// Puts a line with the flush's number and its count of points, and a line for each point.
#[tactic(auto, unfolding(crate::specs::Replies::flush_text))]
pub fn put_flush(out: &mut Vec<u8>, flush: &Flush) -> Result<(), AllocError>
    ensures { OnOk result (out.new.items ≡ out.old.items ++ spec.flush_text flush.now.number
        flush.now.points) }
{
    let points = flush.points.as_slice();
    out.extend_from_slice(b"flush ")?;
    put_number(out, flush.number)?;
    out.extend_from_slice(b" points ")?;
    put_number(out, points.len() as u64)?;
    out.extend_from_slice(b"\n")?;
    for point in points {
        put_point(out, point)?;
    }
    Ok(())
}
