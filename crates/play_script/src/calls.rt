//! Carries out commands: calls the book and makes the reply.

ghost use Rattle.std.specs.Prelude.{◌≡◌, ◌≤◌, ◌<◌, Some, None, true, length, IfErr, OnErr, OnOk};
ghost use Rattle.metric_events.specs.Senders.{is_sender_name};
ghost use Rattle.delta_book.specs.Journal.{history};
ghost use Rattle.delta_book.specs.Refusals.{flush_refusal};
ghost use Rattle.metric_events.specs.History.{◌▸◌};
ghost use Rattle.play_script.specs.inner.Answered.{IsReply, reply_text};
ghost use Rattle.play_script.specs.Commands as asked;
ghost use Rattle.delta_book.specs.Outcomes.{event_of};
ghost use Rattle.play_script.specs.Run as spec;
ghost use Rattle.play_script.specs.inner.Run.{IsForwarded};
ghost use Rattle.metric_events.specs.declared.event.Event.TheVariants as event;
ghost use Rattle.play_script.specs.inner.Views.{asked_by, words_of_each, IsReady};

use crate::command::Command;
use crate::point_line::PointLine;
use crate::points::make_points;
use crate::refusal::Refusal;
use crate::reply::Reply;
use back_answers::Act;
use delta_book::book::Book;
use delta_book::faults::NotLive;
use delta_book::flush::Flush;
use metric_events::batch::Batch;
use metric_events::limits::MAX_TAKEN;
use metric_events::sender_name::SenderName;
use otlp_read::read_request;
use out_texts::request_text;
use std::alloc::Global;

/// The seat of a script's entries in the journal.
const SEAT: u16 = 0;

fn admit(alloc: Global, book: &mut Book, sender: &[u8], lines: &[PointLine<'_>]) -> Reply<'static>
    requires named { is_sender_name sender.now ≡ true }
    requires some { 0 < length lines.now }
    ensures { IsReply (history book.old) (asked.AdmitLine sender.now (words_of_each lines.now))
        (reply_text result) (history book.new) }
{
    let Ok(sender) = SenderName::new(alloc, sender) else {
        return Reply::Refused(Refusal::NoMemory);
    };
    let points = match make_points(alloc, lines) {
        Ok(points) => points,
        Err(fault) => return Reply::Refused(Refusal::Point(fault)),
    };
    match book.admit(SEAT, Batch { sender, points }) {
        Ok(batch) => return Reply::Batch(batch),
        Err((fault, _)) => return Reply::Refused(Refusal::Admit(fault)),
    }
}

fn post(alloc: Global, book: &mut Book, sender: &[u8], body: &[u8]) -> Reply<'static>
    requires named { is_sender_name sender.now ≡ true }
    ensures { IsReply (history book.old) (asked.PostLine sender.now body.now) (reply_text result)
        (history book.new) }
{
    let reading = match read_request(alloc, body) {
        Ok(reading) => reading,
        Err(fault) => return Reply::Refused(Refusal::Read(fault)),
    };
    let foreign = reading.foreign;
    if reading.points.as_slice().is_empty() {
        return Reply::OnlyForeign(foreign);
    }
    let Ok(sender) = SenderName::new(alloc, sender) else {
        return Reply::Refused(Refusal::NoMemory);
    };
    let points = reading.points;
    match book.admit(SEAT, Batch { sender, points }) {
        Ok(batch) => return Reply::Posted { batch, foreign },
        Err((fault, _)) => return Reply::Refused(Refusal::Admit(fault)),
    }
}

fn take(book: &mut Book, max: u64) -> Reply<'static>
    requires low { 1 ≤ max }
    requires high { max ≤ MAX_TAKEN }
    ensures { IsReply (history book.old) (asked.TakeLine max) (reply_text result)
        (history book.new) }
{
    match book.take(SEAT, max as usize) {
        Ok(None) => Reply::Nothing,
        Ok(Some(flush)) => Reply::Flushed(flush),
        Err(fault) => Reply::Refused(Refusal::Take(fault)),
    }
}

fn undo(book: &mut Book, batch: u64) -> Reply<'static>
    ensures { IsReply (history book.old) (asked.UndoLine batch) (reply_text result)
        (history book.new) }
{
    match book.undo(SEAT, batch) {
        Ok(()) => Reply::Undone(batch),
        Err(fault) => Reply::Refused(Refusal::Undo(fault)),
    }
}

fn confirm(book: &mut Book, batch: u64) -> Reply<'static>
    ensures { IsReply (history book.old) (asked.ConfirmLine batch) (reply_text result)
        (history book.new) }
{
    match book.confirm(SEAT, batch) {
        Ok(()) => Reply::Confirmed(batch),
        Err(_) => Reply::Refused(Refusal::NotOpen),
    }
}

fn quarantine<'a>(alloc: Global, book: &mut Book, sender: &'a [u8]) -> Reply<'a>
    requires { is_sender_name sender.now ≡ true }
    ensures { IsReply (history book.old) (asked.QuarantineLine sender.now) (reply_text result)
        (history book.new) }
{
    let Ok(name) = SenderName::new(alloc, sender) else {
        return Reply::Refused(Refusal::NoMemory);
    };
    match book.quarantine(SEAT, name) {
        Ok(()) => Reply::Quarantined(sender),
        Err(fault) => Reply::Refused(Refusal::Quarantine(fault)),
    }
}

fn lift<'a>(alloc: Global, book: &mut Book, sender: &'a [u8]) -> Reply<'a>
    requires { is_sender_name sender.now ≡ true }
    ensures { IsReply (history book.old) (asked.LiftLine sender.now) (reply_text result)
        (history book.new) }
{
    let Ok(name) = SenderName::new(alloc, sender) else {
        return Reply::Refused(Refusal::NoMemory);
    };
    match book.lift(SEAT, &name) {
        Ok(()) => Reply::Lifted(sender),
        Err(_) => Reply::Refused(Refusal::NotQuarantined),
    }
}

fn report(book: &Book) -> Reply<'static>
    ensures { IsReply (history book.now) asked.ReportLine (reply_text result) (history book.now) }
{
    match book.totals() {
        Ok(rows) => Reply::Report(rows),
        Err(_) => Reply::Refused(Refusal::NoMemory),
    }
}

fn round(book: &mut Book) -> Reply<'static>
    ensures { IsReply (history book.old) asked.RoundLine (reply_text result) (history book.new) }
{
    match book.close_round() {
        Ok(round) => Reply::Round(round),
        Err(fault) => Reply::Refused(Refusal::Round(fault)),
    }
}

fn past(book: &Book) -> Reply<'static>
    ensures { IsReply (history book.now) asked.PastLine (reply_text result) (history book.now) }
{
    match book.past() {
        Ok(rows) => Reply::Past(rows),
        Err(_) => Reply::Refused(Refusal::NoMemory),
    }
}

/// Gives back a flush that is live.
fn return_flush(book: &mut Book, flush: u64)
    requires { flush_refusal (history book.old) flush ≡ None }
    ensures { history book.new ≡ history book.old ▸ event.GiveBack flush }
{
    let Ok(()) = book.give_back(SEAT, flush) else {
        unreachable!()
    };
}

/// The reply with the request of a live flush. Without memory for it the flush is given back.
fn forward(alloc: Global, book: &mut Book, flush: &Flush) -> Reply<'static>
    requires { flush_refusal (history book.old) flush.now.number ≡ None }
    ensures { IsForwarded (history book.old) (history book.new) flush.now.number
        flush.now.points (reply_text result) }
{
    match request_text(alloc, flush) {
        Ok(request) => Reply::Wired {
            flush: flush.number,
            request,
        },
        Err(_) => {
            return_flush(book, flush.number);
            Reply::Refused(Refusal::NoMemory)
        }
    }
}

fn wire(alloc: Global, book: &mut Book, most: u64) -> Reply<'static>
    requires low { 1 ≤ most }
    requires high { most ≤ MAX_TAKEN }
    ensures { IsReply (history book.old) (asked.WireLine most) (reply_text result)
        (history book.new) }
{
    match book.take(SEAT, most as usize) {
        Ok(None) => Reply::Nothing,
        Ok(Some(flush)) => forward(alloc, book, &flush),
        Err(fault) => Reply::Refused(Refusal::Take(fault)),
    }
}

/// Ends a flush by an act.
fn end_flush(book: &mut Book, flush: u64, by: Act) -> Result<(), NotLive>
    ensures ok { OnOk result (history book.new ≡ history book.old ▸ event_of by flush) }
    ensures none { OnOk result (flush_refusal (history book.old) flush ≡ None) }
    ensures fault { IfErr result (λ e. flush_refusal (history book.old) flush ≡ Some e) }
    ensures err { OnErr result (book.new ≡ book.old) }
{
    match by {
        Act::Settle => book.settle(SEAT, flush),
        Act::GiveBack => book.give_back(SEAT, flush),
        Act::DropFlush => book.drop_flush(SEAT, flush),
    }
}

/// The reply about a flush that an act has ended.
fn end_reply(flush: u64, by: Act, wait: Option<u64>) -> Reply<'static>
    ensures { reply_text result ≡ spec.act_text by wait flush }
{
    match (by, wait) {
        (Act::Settle, _) => Reply::Settled(flush),
        (Act::GiveBack, None) => Reply::Returned(flush),
        (Act::GiveBack, Some(seconds)) => Reply::Waits { flush, seconds },
        (Act::DropFlush, _) => Reply::Dropped(flush),
    }
}

fn end(book: &mut Book, flush: u64, by: Act, wait: Option<u64>) -> Reply<'static>
    ensures { IsReply (history book.old) (asked.EndLine flush by wait) (reply_text result)
        (history book.new) }
{
    match end_flush(book, flush, by) {
        Ok(()) => end_reply(flush, by, wait),
        Err(_) => Reply::Refused(Refusal::NotLive),
    }
}

/// Carries out a command and makes its reply.
pub fn reply_to<'a>(alloc: Global, book: &mut Book, command: Command<'a>) -> Reply<'a>
    requires { IsReady (Some command) }
    ensures { IsReply (history book.old) (asked_by (Some command.entry)) (reply_text result)
        (history book.new) }
{
    match command {
        Command::Admit { sender, points } => admit(alloc, book, sender, points.as_slice()),
        Command::Take(max) => take(book, max),
        Command::End { flush, by, wait } => end(book, flush, by, wait),
        Command::Report => report(book),
        Command::Undo(batch) => undo(book, batch),
        Command::Confirm(batch) => confirm(book, batch),
        Command::Quarantine(sender) => quarantine(alloc, book, sender),
        Command::Lift(sender) => lift(alloc, book, sender),
        Command::Post { sender, body } => post(alloc, book, sender, body),
        Command::Round => round(book),
        Command::Past => past(book),
        Command::Wire(max) => wire(alloc, book, max),
    }
}
