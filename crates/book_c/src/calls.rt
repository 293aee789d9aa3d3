//! The calls, with what they answer.
ghost use Rattle.std.specs.Prelude.{◌≡◌, ◌≢◌, ◌≤◌, ◌<◌, [], None, length, true};
ghost use Rattle.book_desk.specs.Each.{Each, EachBook};
ghost use Rattle.book_desk.specs.Ends.{IsEndedBy};
ghost use Rattle.book_desk.specs.Holds.{Holds, Releases, hold_refusal, is_held_in};
ghost use Rattle.book_desk.specs.Crossings.{IsCrossing};
ghost use Rattle.book_desk.specs.EndRanges.{IsRangeOf, ends_of};
ghost use Rattle.book_desk.specs.Posts.{Keeps};
ghost use Rattle.book_desk.specs.Naming.{Extends};
ghost use Rattle.book_desk.specs.Reads.{IsRead, IsReadBytes, IsPut};
ghost use Rattle.book_desk.specs.Refusals.{post_refusal};
ghost use Rattle.book_desk.specs.Takes as takes;
ghost use Rattle.book_desk.specs.Takes.{Takes, take_all_refusal, IsTakenAlone};
ghost use Rattle.book_desk.specs.Written.{IsForwarded, IsReported};
ghost use Rattle.book_c.specs.Answers.{counts_of, written_of, left_of, range_of};
ghost use Rattle.book_c.specs.Calls.{TellsUnread, TellsUnreadBytes, TellsNotAdmitted};
ghost use Rattle.book_c.specs.Calls.{TellsNotTaken, TellsNotEnded};
ghost use Rattle.book_c.specs.Calls.{TellsNotForwarded, TellsNotReported, TellsNotPut};
ghost use Rattle.book_c.specs.Calls.{TellsNoPoints, TellsNoCrossing};
ghost use Rattle.book_c.specs.Calls.{TellsNotTakenAlone};
ghost use Rattle.book_c.specs.Calls.{TellsSaid, TellsNotSaid, TellsNamed, TellsNotNamed};
ghost use Rattle.book_c.specs.inner.Names as names;
ghost use Rattle.book_c.specs.Calls.{TellsNotHeld, TellsNotLifted};

use crate::answers::{
    Answer, admit_answer, bytes_status, end_status, hold_status, post_status, put_status,
    take_status, text_status,
};
use crate::fronts::copy_front;
use crate::statuses::{BAD_SENDER, DONE, NO_MEMORY, NONE_CROSSES, NOT_QUARANTINED, NOTHING};
use book_desk::desk::Desk;
use book_desk::draft::Counts;
use book_desk::end::End;
use book_desk::flushes::Flushes;
use book_desk::names::Names;
use book_desk::reader::Reader;
use book_desk::window::Window;
use metric_events::limits::MAX_TAKEN;
use metric_events::sender_name::{NameFault, SenderName};
use std::alloc::Global;

/// What a post is answered that was read.
fn counted(counts: Counts) -> Answer
    ensures counts { counts_of result ≡ counts }
    ensures status { result.status ≡ DONE }
{
    Answer {
        status: DONE,
        number: counts.points,
        at: counts.foreign,
        frontier: counts.outside,
    }
}

pub fn read(reader: &mut Reader, sender: &[u8], body: &[u8], books: usize, window: Window) -> Answer
    requires { 0 < books }
    ensures read { result.status ≡ DONE → IsRead sender.now body.now books window
        (counts_of result) reader.new }
    ensures unread { result.status ≢ DONE → TellsUnread sender.now body.now result reader.new }
{
    match reader.read(sender, body, books, window) {
        Ok(counts) => counted(counts),
        Err(fault) => Answer::plain(post_status(fault)),
    }
}

pub fn read_protobuf(
    reader: &mut Reader,
    sender: &[u8],
    body: &[u8],
    books: usize,
    window: Window,
) -> Answer
    requires { 0 < books }
    ensures read { result.status ≡ DONE → IsReadBytes sender.now body.now books window
        (counts_of result) reader.new }
    ensures unread { result.status ≢ DONE → TellsUnreadBytes sender.now body.now result reader.new }
{
    match reader.read_protobuf(sender, body, books, window) {
        Ok(counts) => counted(counts),
        Err(fault) => Answer::plain(bytes_status(fault)),
    }
}

pub fn put(
    reader: &mut Reader,
    names: &Names,
    sender: &[u8],
    words: &[u64],
    books: usize,
    window: Window,
) -> Answer
    requires { 0 < books }
    ensures put { result.status ≡ DONE → IsPut names.now sender.now words.now books window
        (counts_of result) reader.new }
    ensures refused { result.status ≢ DONE → TellsNotPut names.now sender.now words.now result
        reader.new }
{
    match reader.put(names, sender, words, books, window) {
        Ok(counts) => counted(counts),
        Err(fault) => Answer::plain(put_status(fault)),
    }
}

/// Words for the points that the reader has, and how many names there are then.
pub fn words(reader: &Reader, names: &mut Names, out: &mut [u64]) -> Answer
    ensures said { result.status ≡ DONE → TellsSaid names.new out.old out.new reader.now
        result.number }
    ensures refused { result.status ≢ DONE → TellsNotSaid names.new out.old reader.now result }
    ensures left { result.status ≢ DONE → out.new ≡ out.old }
    ensures count { result.status ≢ NO_MEMORY → result.at ≡ length names.new }
    ensures more { Extends names.old names.new }
{
    let Ok(words) = reader.words(names) else {
        return Answer::plain(NO_MEMORY);
    };
    Answer {
        status: copy_front(&words, out),
        number: words.len() as u64,
        at: names.len() as u64,
        frontier: 0,
    }
}

/// A request of the series with this number.
pub fn name(names: &Names, number: u64, out: &mut [u8]) -> Answer
    ensures named { result.status ≡ DONE → TellsNamed names.now number out.old out.new
        result.number }
    ensures refused { result.status ≢ DONE → TellsNotNamed names.now number out.old result }
    ensures left { result.status ≢ DONE → out.new ≡ out.old }
{
    let text = match names.request(number) {
        Ok(text) => text,
        Err(fault) => return Answer::plain(text_status(fault)),
    };
    Answer {
        status: copy_front(&text, out),
        number: text.len() as u64,
        at: 0,
        frontier: 0,
    }
}

/// The least and the greatest end of the points that the reader has.
pub fn ends(reader: &Reader) -> Answer
    ensures range { result.status ≡ DONE → IsRangeOf (ends_of reader.now) (range_of result) }
    ensures none { result.status ≢ DONE → TellsNoPoints reader.now result }
{
    match reader.ends() {
        Some(range) => Answer {
            status: DONE,
            number: range.least,
            at: range.greatest,
            frontier: 0,
        },
        None => Answer::plain(NOTHING),
    }
}

pub fn admit(desk: &mut Desk, reader: &mut Reader) -> Answer
    ensures taken { result.status ≡ DONE → Each Keeps desk.old.books.items desk.new.books.items
        reader.old }
    ensures none { result.status ≡ DONE → post_refusal desk.old.books.items reader.old ≡ None }
    ensures refused { result.status ≢ DONE → TellsNotAdmitted desk.old.books.items reader.old
        result }
    ensures same { result.status ≢ DONE → desk.new.books.items ≡ desk.old.books.items }
    ensures gone { reader.new ≡ [] }
{
    match desk.admit(reader) {
        Ok(()) => Answer::plain(DONE),
        Err(fault) => admit_answer(fault),
    }
}

pub fn try_admit(desk: &mut Desk, reader: &mut Reader) -> Answer
    ensures none { result.status ≡ DONE → post_refusal desk.old.books.items reader.old ≡ None }
    ensures refused { result.status ≢ DONE → TellsNotAdmitted desk.old.books.items reader.old
        result }
    ensures same { desk.new.books.items ≡ desk.old.books.items }
    ensures gone { reader.new ≡ [] }
{
    match desk.try_admit(reader) {
        Ok(()) => Answer::plain(DONE),
        Err(fault) => admit_answer(fault),
    }
}

pub fn crosses(desk: &Desk, reader: &Reader, stretch: u64, first: usize) -> Answer
    requires { 0 < stretch }
    ensures crossing { result.status ≡ DONE → IsCrossing stretch desk.now.books.items reader.now
        first result.number }
    ensures none { result.status ≢ DONE → TellsNoCrossing stretch desk.now.books.items reader.now
        first result }
{
    match desk.crosses(reader, stretch, first) {
        Ok(Some(i)) => Answer {
            status: DONE,
            number: i as u64,
            at: 0,
            frontier: 0,
        },
        Ok(None) => Answer::plain(NONE_CROSSES),
        Err(_) => Answer::plain(NOTHING),
    }
}

pub fn take(desk: &mut Desk, flushes: &mut Flushes, max: usize) -> Answer
    requires low { 1 ≤ max }
    requires high { max ≤ MAX_TAKEN }
    ensures taken { result.status ≡ DONE → Each (Takes max) desk.old.books.items
        desk.new.books.items flushes.new.flushes.items }
    ensures none { result.status ≡ DONE → take_all_refusal desk.old.books.items max ≡ None }
    ensures count { result.status ≡ DONE → result.number ≡ takes.count
        flushes.new.flushes.items }
    ensures some { result.status ≡ DONE → 1 ≤ result.number }
    ensures refused { result.status ≢ DONE → TellsNotTaken max desk.old.books.items
        desk.new.books.items flushes.old.flushes.items result }
    ensures same { result.status ≢ DONE → flushes.new ≡ flushes.old }
    ensures text { flushes.new.text ≡ flushes.old.text }
{
    match desk.take(flushes, max) {
        Ok(found) => Answer {
            status: DONE,
            number: found as u64,
            at: 0,
            frontier: 0,
        },
        Err(fault) => Answer::plain(take_status(fault)),
    }
}

pub fn take_book(desk: &mut Desk, flushes: &mut Flushes, i: usize, max: usize) -> Answer
    requires low { 1 ≤ max }
    requires high { max ≤ MAX_TAKEN }
    ensures taken { result.status ≡ DONE → IsTakenAlone max i desk.old.books.items
        desk.new.books.items flushes.new.flushes.items }
    ensures count { result.status ≡ DONE → result.number ≡ 1 }
    ensures refused { result.status ≢ DONE → TellsNotTakenAlone max i desk.old.books.items
        desk.new.books.items flushes.old.flushes.items result }
    ensures same { result.status ≢ DONE → flushes.new ≡ flushes.old }
    ensures text { flushes.new.text ≡ flushes.old.text }
{
    match desk.take_book(flushes, i, max) {
        Ok(()) => Answer {
            status: DONE,
            number: 1,
            at: 0,
            frontier: 0,
        },
        Err(fault) => Answer::plain(take_status(fault)),
    }
}

pub fn write(flushes: &mut Flushes, i: usize) -> Answer
    ensures written { result.status ≡ DONE → IsForwarded flushes.old.flushes.items i
        flushes.new.text.items (written_of result) }
    ensures refused { result.status ≢ DONE → TellsNotForwarded flushes.old.flushes.items i
        result }
    ensures none { result.status ≢ DONE → flushes.new.text.items ≡ [] }
    ensures same { flushes.new.flushes ≡ flushes.old.flushes }
{
    match flushes.write_request(i) {
        Ok(written) => Answer {
            status: DONE,
            number: written.bytes as u64,
            at: written.series as u64,
            frontier: 0,
        },
        Err(fault) => Answer::plain(text_status(fault)),
    }
}

pub fn report(desk: &Desk, flushes: &mut Flushes, i: usize) -> Answer
    ensures written { result.status ≡ DONE → IsReported desk.now.books.items i
        flushes.new.text.items result.number }
    ensures refused { result.status ≢ DONE → TellsNotReported desk.now.books.items i result }
    ensures none { result.status ≢ DONE → flushes.new ≡ flushes.old }
    ensures same { flushes.new.flushes ≡ flushes.old.flushes }
{
    match desk.report(flushes, i) {
        Ok(bytes) => Answer {
            status: DONE,
            number: bytes as u64,
            at: 0,
            frontier: 0,
        },
        Err(fault) => Answer::plain(text_status(fault)),
    }
}

pub fn end(desk: &mut Desk, flushes: &mut Flushes, end: End) -> u32
    ensures ended { result ≡ DONE → Each (IsEndedBy end) desk.old.books.items
        desk.new.books.items flushes.old.flushes.items }
    ensures refused { result ≢ DONE → TellsNotEnded end desk.old.books.items
        desk.new.books.items flushes.old.flushes.items result }
    ensures left { flushes.new.flushes.items ≡ left_of result flushes.old.flushes.items }
    ensures text { flushes.new.text ≡ flushes.old.text }
{
    match desk.end(flushes, end) {
        Ok(()) => DONE,
        Err(fault) => end_status(fault),
    }
}

/// What bytes are answered that are no sender's name.
fn name_status(fault: NameFault) -> u32
    ensures value { result ≡ names.name_status fault }
    ensures some { result ≢ DONE }
{
    match fault {
        NameFault::NoMemory => NO_MEMORY,
        _ => BAD_SENDER,
    }
}

pub fn quarantine(alloc: Global, desk: &mut Desk, sender: &[u8]) -> u32
    ensures held { result ≡ DONE → EachBook (Holds sender.now) desk.old.books.items
        desk.new.books.items }
    ensures none { result ≡ DONE → hold_refusal desk.old.books.items sender.now ≡ None }
    ensures refused { result ≢ DONE → TellsNotHeld desk.old.books.items desk.new.books.items
        sender.now result }
{
    let sender = match SenderName::new(alloc, sender) {
        Ok(sender) => sender,
        Err(fault) => return name_status(fault),
    };
    match desk.quarantine(&sender) {
        Ok(()) => DONE,
        Err(fault) => hold_status(fault),
    }
}

pub fn lift(alloc: Global, desk: &mut Desk, sender: &[u8]) -> u32
    ensures released { result ≡ DONE → EachBook (Releases sender.now) desk.old.books.items
        desk.new.books.items }
    ensures held { result ≡ DONE → is_held_in desk.old.books.items sender.now ≡ true }
    ensures refused { result ≢ DONE → TellsNotLifted desk.old.books.items sender.now result }
    ensures same { result ≢ DONE → desk.new.books.items ≡ desk.old.books.items }
{
    let sender = match SenderName::new(alloc, sender) {
        Ok(sender) => sender,
        Err(fault) => return name_status(fault),
    };
    if desk.lift(&sender) {
        return DONE;
    }
    NOT_QUARANTINED
}
