//! Writes the totals of earlier rounds: a line for each series.

ghost use Rattle.std.specs.Prelude.{◌≡◌, ◌++◌, map, IfOk, OnOk};
ghost use Rattle.delta_book.specs.PastRows.{past_row};
ghost use Rattle.out_texts.specs.Past as spec;
ghost use Rattle.out_texts.specs.Rows.{labeled_row};

use crate::series_name::{put_kind, put_series_name};
use crate::words::put_joined;
use delta_book::totals::PastTotals;
use std::alloc::{AllocError, Global};

/// Appends what identifies the line's series: its name and kind.
#[tactic(auto, unfolding(crate::specs::Past::past_head))]
fn put_head(out: &mut Vec<u8>, past: &PastTotals) -> Result<(), AllocError>
    ensures { OnOk result (out.new.items ≡ out.old.items ++ spec.past_head (past_row past.now)) }
{
    out.extend_from_slice(b"past ")?;
    put_series_name(out, past.series.as_series())?;
    out.extend_from_slice(b" ")?;
    put_kind(out, past.series.as_series().kind())
}

/// Appends a label and the words of a row.
#[tactic(auto, unfolding(crate::specs::Rows::labeled_row, crate::specs::Rows::row_text))]
fn put_labeled_row(out: &mut Vec<u8>, label: &[u8], row: &[u128]) -> Result<(), AllocError>
    ensures { OnOk result (out.new.items ≡ out.old.items ++ labeled_row label.now row.now) }
{
    out.extend_from_slice(label)?;
    put_joined(out, b',', row)
}

/// Appends what was acknowledged and what was dropped.
#[tactic(auto, unfolding(crate::specs::Past::past_rows))]
fn put_ended_rows(out: &mut Vec<u8>, past: &PastTotals) -> Result<(), AllocError>
    ensures { OnOk result (out.new.items ≡ out.old.items ++ spec.past_rows (past_row past.now)) }
{
    put_labeled_row(out, b" acknowledged ", past.acknowledged.as_slice())?;
    put_labeled_row(out, b" dropped ", past.dropped.as_slice())
}

/// Appends the line of a series.
#[tactic(auto, unfolding(crate::specs::Past::past_line))]
fn put_line(out: &mut Vec<u8>, past: &PastTotals) -> Result<(), AllocError>
    ensures { OnOk result (out.new.items ≡ out.old.items ++ spec.past_line (past_row past.now)) }
{
    put_head(out, past)?;
    put_ended_rows(out, past)?;
    out.extend_from_slice(b"\n")
}

/// Appends a line for each series, in the order of the rows, and a line `end`.
#[tactic(auto, unfolding(crate::specs::Past::past_text))]
pub fn put_past(out: &mut Vec<u8>, rows: &[PastTotals]) -> Result<(), AllocError>
    ensures { OnOk result (out.new.items ≡ out.old.items
        ++ spec.past_text (map past_row rows.now)) }
{
    for past in rows {
        put_line(out, past)?;
    }
    out.extend_from_slice(b"end\n")
}

/// The totals of earlier rounds: a line for each series, in the order of the rows, and a line
/// `end`. Each line ends with a line feed. Words have 128 bits here.
pub fn past_text(alloc: Global, rows: &[PastTotals]) -> Result<Vec<u8>, AllocError>
    ensures { IfOk result (λ text. text.items ≡ spec.past_text (map past_row rows.now)) }
{
    let mut out = Vec::new(alloc);
    put_past(&mut out, rows)?;
    Ok(out)
}
