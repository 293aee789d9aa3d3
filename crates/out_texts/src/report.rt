//! Writes the report of a store: a line for each series.

ghost use Rattle.std.specs.Prelude.{◌≡◌, ◌++◌, IfOk, OnOk};
ghost use Rattle.out_texts.specs.Report as spec;
ghost use Rattle.out_texts.specs.Rows.{labeled_row};

use crate::series_name::{put_kind, put_series_name};
use crate::words::{put_number, put_row};
use delta_book::totals::SeriesTotals;
use metric_events::row::Row;
use std::alloc::{AllocError, Global};

/// Appends what identifies the line's series, its owner and its frontier (nanoseconds).
#[tactic(auto, unfolding(crate::specs::Report::series_head))]
fn put_head(out: &mut Vec<u8>, totals: &SeriesTotals) -> Result<(), AllocError>
    ensures { OnOk result (out.new.items ≡ out.old.items ++ spec.series_head totals.now) }
{
    out.extend_from_slice(b"series ")?;
    put_series_name(out, totals.series.as_series())?;
    out.extend_from_slice(b" ")?;
    put_kind(out, totals.series.as_series().kind())?;
    out.extend_from_slice(b" owner ")?;
    out.extend_from_slice(totals.owner.as_bytes())?;
    out.extend_from_slice(b" frontier ")?;
    put_number(out, totals.frontier)
}

/// Appends a label and the words of a row.
#[tactic(auto, unfolding(crate::specs::Rows::labeled_row))]
fn put_labeled_row(out: &mut Vec<u8>, label: &[u8], row: &Row) -> Result<(), AllocError>
    ensures { OnOk result (out.new.items ≡ out.old.items ++ labeled_row label.now row.now) }
{
    out.extend_from_slice(label)?;
    put_row(out, row.as_slice())
}

/// Appends what was accepted, and what of it was acknowledged and dropped.
#[tactic(auto, unfolding(crate::specs::Report::ended_rows))]
fn put_ended_rows(out: &mut Vec<u8>, totals: &SeriesTotals) -> Result<(), AllocError>
    ensures { OnOk result (out.new.items ≡ out.old.items ++ spec.ended_rows totals.now) }
{
    put_labeled_row(out, b" accepted ", &totals.accepted)?;
    put_labeled_row(out, b" acknowledged ", &totals.acknowledged)?;
    put_labeled_row(out, b" dropped ", &totals.dropped)
}

/// Appends what is in flight, stored and quarantined.
#[tactic(auto, unfolding(crate::specs::Report::kept_rows))]
fn put_kept_rows(out: &mut Vec<u8>, totals: &SeriesTotals) -> Result<(), AllocError>
    ensures { OnOk result (out.new.items ≡ out.old.items ++ spec.kept_rows totals.now) }
{
    put_labeled_row(out, b" in-flight ", &totals.in_flight)?;
    put_labeled_row(out, b" stored ", &totals.stored)?;
    put_labeled_row(out, b" quarantined ", &totals.quarantined)
}

/// Appends the line of a series.
#[tactic(auto, unfolding(crate::specs::Report::series_line))]
fn put_line(out: &mut Vec<u8>, totals: &SeriesTotals) -> Result<(), AllocError>
    ensures { OnOk result (out.new.items ≡ out.old.items ++ spec.series_line totals.now) }
{
    put_head(out, totals)?;
    put_ended_rows(out, totals)?;
    put_kept_rows(out, totals)?;
    out.extend_from_slice(b"\n")
}

/// Appends a line for each series, in the order of the rows, and a line `end`.
#[tactic(auto, unfolding(crate::specs::Report::report_text))]
pub fn put_report(out: &mut Vec<u8>, rows: &[SeriesTotals]) -> Result<(), AllocError>
    ensures { OnOk result (out.new.items ≡ out.old.items ++ spec.report_text rows.now) }
{
    for totals in rows {
        put_line(out, totals)?;
    }
    out.extend_from_slice(b"end\n")
}

/// The report: a line for each series, in the order of the rows, and a line `end`. Each line ends
/// with a line feed.
pub fn report_text(alloc: Global, rows: &[SeriesTotals]) -> Result<Vec<u8>, AllocError>
    ensures { IfOk result (λ text. text.items ≡ spec.report_text rows.now) }
{
    let mut out = Vec::new(alloc);
    put_report(&mut out, rows)?;
    Ok(out)
}
