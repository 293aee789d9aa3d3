//! Why a command is refused, and the texts that say so.

ghost use Rattle.std.specs.Prelude.{◌≡◌, ◌++◌, OnOk};
ghost use Rattle.play_script.specs.Refused as spec;

use delta_book::faults::{AdmitFault, QuarantineFault, RoundFault, TakeFault, UndoFault};
use metric_events::point::PointFault;
use otlp_read::ReadFault;
use out_texts::put_number;
use std::alloc::AllocError;

/// Why a command is refused.
#[derive(Clone, Copy, Debug, PartialEq, Eq)]
pub enum Refusal {
    /// A point can't be made.
    Point(PointFault),
    /// A body can't be read.
    Read(ReadFault),
    Admit(AdmitFault),
    Take(TakeFault),
    Undo(UndoFault),
    Quarantine(QuarantineFault),
    Round(RoundFault),
    /// No such batch is open.
    NotOpen,
    /// No such flush is live.
    NotLive,
    /// The sender is not quarantined.
    NotQuarantined,
    NoMemory,
}

/// The fault of a plain sum is never `NegativeMonotonic` or `BucketMismatch`.
fn point_text(fault: PointFault) -> &'static str
    ensures { result.now ≡ spec.point_text fault }
{
    match fault {
        PointFault::BadSpan => "bad-span",
        PointFault::NegativeMonotonic => "point-too-large",
        PointFault::BucketMismatch => "point-too-large",
        PointFault::TooLarge => "point-too-large",
        PointFault::NoMemory => "no-memory",
    }
}

fn read_text(fault: ReadFault) -> &'static str
    ensures { result.now ≡ spec.read_text fault }
{
    match fault {
        ReadFault::NotJson => "not-json",
        ReadFault::WrongShape(_) => "wrong-shape",
        ReadFault::NoMemory => "no-memory",
    }
}

/// Puts a point's index and its series' frontier.
fn put_place(out: &mut Vec<u8>, point: u64, frontier: u64) -> Result<(), AllocError>
    ensures { OnOk result (out.new.items ≡ out.old.items ++ spec.place_text point frontier) }
{
    put_number(out, point)?;
    out.extend_from_slice(b" ")?;
    put_number(out, frontier)
}

/// A point is named by its index in its batch, from 0.
fn put_admit(out: &mut Vec<u8>, fault: AdmitFault) -> Result<(), AllocError>
    ensures { OnOk result (out.new.items ≡ out.old.items ++ spec.admit_text fault) }
{
    match fault {
        AdmitFault::Quarantined => out.extend_from_slice(b"quarantined"),
        AdmitFault::Full => out.extend_from_slice(b"full"),
        AdmitFault::OtherWriter(point) => {
            out.extend_from_slice(b"other-writer ")?;
            put_number(out, point as u64)
        }
        AdmitFault::OutOfOrder(point, frontier) => {
            out.extend_from_slice(b"out-of-order ")?;
            put_place(out, point as u64, frontier)
        }
        AdmitFault::TooManySeries => out.extend_from_slice(b"too-many-series"),
        AdmitFault::TooLarge => out.extend_from_slice(b"too-large"),
        AdmitFault::NoMemory => out.extend_from_slice(b"no-memory"),
    }
}

fn take_text(fault: TakeFault) -> &'static str
    ensures { result.now ≡ spec.take_text fault }
{
    match fault {
        TakeFault::Full => "full",
        TakeFault::NoMemory => "no-memory",
    }
}

fn undo_text(fault: UndoFault) -> &'static str
    ensures { result.now ≡ spec.undo_text fault }
{
    match fault {
        UndoFault::NotOpen => "not-open",
        UndoFault::Taken => "taken",
    }
}

fn quarantine_text(fault: QuarantineFault) -> &'static str
    ensures { result.now ≡ spec.quarantine_text fault }
{
    match fault {
        QuarantineFault::Already => "already",
        QuarantineFault::Full => "full",
        QuarantineFault::NoMemory => "no-memory",
    }
}

fn round_text(fault: RoundFault) -> &'static str
    ensures { result.now ≡ spec.round_text fault }
{
    match fault {
        RoundFault::BatchOpen => "batch-open",
        RoundFault::FlushLive => "flush-live",
        RoundFault::LastRound => "last-round",
        RoundFault::NoMemory => "no-memory",
    }
}

/// Puts the reason after the text.
pub fn put_refusal(out: &mut Vec<u8>, refusal: Refusal) -> Result<(), AllocError>
    ensures { OnOk result (out.new.items ≡ out.old.items ++ spec.refusal_text refusal) }
{
    let text = match refusal {
        Refusal::Admit(fault) => return put_admit(out, fault),
        Refusal::Point(fault) => point_text(fault),
        Refusal::Read(fault) => read_text(fault),
        Refusal::Take(fault) => take_text(fault),
        Refusal::Undo(fault) => undo_text(fault),
        Refusal::Quarantine(fault) => quarantine_text(fault),
        Refusal::Round(fault) => round_text(fault),
        Refusal::NotOpen => "not-open",
        Refusal::NotLive => "not-live",
        Refusal::NotQuarantined => "not-held",
        Refusal::NoMemory => "no-memory",
    };
    out.extend_from_slice(text.as_bytes())
}
