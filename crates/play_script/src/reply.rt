//! The replies to lines, and their texts.

ghost use Rattle.std.specs.Prelude.{◌≡◌, ◌++◌, OnOk, codes, decimal};
ghost use Rattle.play_script.specs.inner.Answered.{reply_text};
ghost use Rattle.play_script.specs.Refused.{refusal_text};
ghost use Rattle.play_script.specs.Replies.{said, batch_and_foreign, wired_text, flush_and_wait};

use crate::flush_text::put_flush;
use crate::refusal::{Refusal, put_refusal};
use delta_book::flush::Flush;
use delta_book::totals::{PastTotals, SeriesTotals};
use out_texts::{put_number, put_past, put_report};
use std::alloc::AllocError;

/// The reply to a line.
#[derive(Drop)]
pub enum Reply<'a> {
    /// The line is no command.
    BadCommand,
    Refused(Refusal),
    /// There is nothing to take.
    Nothing,
    /// A batch of this number was admitted.
    Batch(u64),
    /// The batch of a body was admitted. The body has so many foreign points.
    Posted { batch: u64, foreign: u64 },
    /// A body has only foreign points, so many.
    OnlyForeign(u64),
    Flushed(Flush),
    Settled(u64),
    Returned(u64),
    Undone(u64),
    Confirmed(u64),
    Dropped(u64),
    Quarantined(&'a [u8]),
    Lifted(&'a [u8]),
    Report(Vec<SeriesTotals>),
    /// The round of this number has begun.
    Round(u64),
    Past(Vec<PastTotals>),
    /// A flush of this number was taken. This request forwards it.
    Wired { flush: u64, request: Vec<u8> },
    /// A flush was given back, and the back end asks to wait so many seconds.
    Waits { flush: u64, seconds: u64 },
}

/// Puts a word and a text on a line.
#[tactic(auto, unfolding(crate::specs::Replies::said))]
fn put_said(out: &mut Vec<u8>, word: &[u8], text: &[u8]) -> Result<(), AllocError>
    ensures { OnOk result (out.new.items ≡ out.old.items ++ said word.now text.now) }
{
    out.extend_from_slice(word)?;
    out.extend_from_slice(text)?;
    out.push(b'\n')?;
    Ok(())
}

/// Puts a word and a number on a line.
#[tactic(auto, unfolding(crate::specs::Replies::said))]
fn put_numbered(out: &mut Vec<u8>, word: &[u8], number: u64) -> Result<(), AllocError>
    ensures { OnOk result (out.new.items ≡ out.old.items ++ said word.now (decimal number)) }
{
    out.extend_from_slice(word)?;
    put_number(out, number)?;
    out.push(b'\n')?;
    Ok(())
}

/// Puts the number of a body's batch, and the count of the body's foreign points.
#[tactic(auto, unfolding(crate::specs::Replies::said, crate::specs::Replies::batch_and_foreign))]
fn put_posted(out: &mut Vec<u8>, batch: u64, foreign: u64) -> Result<(), AllocError>
    ensures { OnOk result (out.new.items ≡ out.old.items ++ said (codes "batch ")
        (batch_and_foreign batch foreign)) }
{
    out.extend_from_slice(b"batch ")?;
    put_number(out, batch)?;
    put_numbered(out, b" foreign ", foreign)
}

/// Puts a flush's number on a line and its request on the next.
#[tactic(auto, unfolding(crate::specs::Replies::said, crate::specs::Replies::wired_text))]
fn put_wired(out: &mut Vec<u8>, flush: u64, request: &[u8]) -> Result<(), AllocError>
    ensures { OnOk result (out.new.items ≡ out.old.items ++ wired_text flush request.now) }
{
    put_numbered(out, b"flush ", flush)?;
    out.extend_from_slice(request)?;
    out.extend_from_slice(b"\n")
}

/// Puts the number of a flush that was given back, and the seconds to wait.
#[tactic(auto, unfolding(crate::specs::Replies::said, crate::specs::Replies::flush_and_wait))]
fn put_wait(out: &mut Vec<u8>, flush: u64, seconds: u64) -> Result<(), AllocError>
    ensures { OnOk result (out.new.items ≡ out.old.items ++ said (codes "returned ")
        (flush_and_wait flush seconds)) }
{
    out.extend_from_slice(b"returned ")?;
    put_number(out, flush)?;
    put_numbered(out, b" after ", seconds)
}

#[tactic(auto, unfolding(crate::specs::Replies::said))]
fn put_refused(out: &mut Vec<u8>, why: Refusal) -> Result<(), AllocError>
    ensures { OnOk result (out.new.items ≡ out.old.items ++ said (codes "refused ")
        (refusal_text why)) }
{
    out.extend_from_slice(b"refused ")?;
    put_refusal(out, why)?;
    out.push(b'\n')?;
    Ok(())
}

/// Puts the text of a reply. Each line ends with a line feed.
pub fn put_reply(out: &mut Vec<u8>, reply: &Reply<'_>) -> Result<(), AllocError>
    ensures { OnOk result (out.new.items ≡ out.old.items ++ reply_text reply.now) }
{
    match reply {
        Reply::BadCommand => out.extend_from_slice(b"bad command\n"),
        Reply::Refused(why) => put_refused(out, *why),
        Reply::Nothing => out.extend_from_slice(b"nothing\n"),
        Reply::Batch(batch) => put_numbered(out, b"batch ", *batch),
        Reply::Posted { batch, foreign } => put_posted(out, *batch, *foreign),
        Reply::OnlyForeign(foreign) => put_numbered(out, b"nothing foreign ", *foreign),
        Reply::Flushed(flush) => put_flush(out, flush),
        Reply::Settled(flush) => put_numbered(out, b"settled ", *flush),
        Reply::Returned(flush) => put_numbered(out, b"returned ", *flush),
        Reply::Undone(batch) => put_numbered(out, b"undone ", *batch),
        Reply::Confirmed(batch) => put_numbered(out, b"confirmed ", *batch),
        Reply::Dropped(flush) => put_numbered(out, b"dropped ", *flush),
        Reply::Quarantined(sender) => put_said(out, b"held ", sender),
        Reply::Lifted(sender) => put_said(out, b"lifted ", sender),
        Reply::Report(rows) => put_report(out, rows.as_slice()),
        Reply::Round(round) => put_numbered(out, b"round ", *round),
        Reply::Past(rows) => put_past(out, rows.as_slice()),
        Reply::Wired { flush, request } => put_wired(out, *flush, request.as_slice()),
        Reply::Waits { flush, seconds } => put_wait(out, *flush, *seconds),
    }
}
