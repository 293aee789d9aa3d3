//! Many books for a program that is not Rattle: a static library over `book_desk`. Here are its
//! exports alone. A handle is one word; one call at a time has it.
#![tactic(auto)]

ghost use Rattle.std.specs.Prelude.{◌≡◌, ◌≢◌, ◌≤◌, ◌<◌, ◌++◌, [], true, false, None, length, drop};
ghost use Rattle.std.specs.Prelude.{IfOk};
ghost use Rattle.std.specs.List.{All};
ghost use Rattle.std.specs.Ptr.{null_ptr};
ghost use Rattle.metric_events.specs.Opening.{first_opening};
ghost use Rattle.delta_book.specs.Journal.{journal_of};
ghost use Rattle.book_desk.specs.Crossings.{IsCrossing};
ghost use Rattle.book_desk.specs.Each.{Each, EachBook};
ghost use Rattle.book_desk.specs.EndRanges.{IsRangeOf, ends_of};
ghost use Rattle.book_desk.specs.Ends.{IsEndedBy};
ghost use Rattle.book_desk.specs.Holds.{Holds, Releases, hold_refusal, is_held_in};
ghost use Rattle.book_desk.specs.Posts.{Keeps};
ghost use Rattle.book_desk.specs.Naming.{Extends};
ghost use Rattle.book_desk.specs.Reads.{IsRead, IsReadBytes, IsPut};
ghost use Rattle.book_desk.specs.Refusals.{post_refusal};
ghost use Rattle.book_desk.specs.Rounds.{IsClosedAlone, most_entries};
ghost use Rattle.book_desk.specs.Takes.{Takes, IsTakenAlone, count, take_all_refusal};
ghost use Rattle.book_desk.specs.Written.{IsForwarded, IsReported, all_series};
ghost use Rattle.book_c.specs.Answers.{counts_of, written_of, left_of, range_of};
ghost use Rattle.book_c.specs.Calls.{TellsUnread, TellsUnreadBytes, TellsNotAdmitted};
ghost use Rattle.book_c.specs.Calls.{TellsNotTaken, TellsNotEnded};
ghost use Rattle.book_c.specs.Calls.{TellsNotForwarded, TellsNotReported, TellsNotPut};
ghost use Rattle.book_c.specs.Calls.{TellsNoPoints, TellsNoCrossing};
ghost use Rattle.book_c.specs.Calls.{TellsNotTakenAlone};
ghost use Rattle.book_c.specs.Calls.{TellsSaid, TellsNotSaid, TellsNamed, TellsNotNamed};
ghost use Rattle.book_c.specs.Calls.{TellsNotHeld, TellsNotLifted};
ghost use Rattle.book_c.specs.Kinds.{HasReader, HasDesk, HasFlushes, HasNames};
ghost use Rattle.book_c.specs.Kinds.{parts_of, books_of, flushes_of, text_of, names_of};

mod answers;
mod calls;
mod fronts;
mod handle;
mod kept;
mod statuses;

use answers::Answer;
use book_desk::desk::Desk;
use book_desk::end::End;
use book_desk::flushes::Flushes;
use book_desk::names::Names;
use book_desk::reader::Reader;
use book_desk::window::Window;
use handle::Handle;
use handle::parts::Parts;
use kept::Kept;
use metric_events::limits::MAX_TAKEN;
use statuses::{DONE, NO_MEMORY};
use std::alloc::{AllocError, Global};
use std::mem;

/// Whoever calls this shows that a value may go from one thread to another, one call at a time.
fn may_cross<T: Send>(_it: &T) {}

/// A handle of this, or the failure to have the memory.
fn handle_of(alloc: Global, it: Kept) -> Result<Handle, AllocError>
    ensures some { IfOk result (λ h. h.at ≢ null_ptr) }
    ensures kept { IfOk result (λ h. h.kept ≡ it) }
{
    may_cross(&it);
    let it = Box::new(alloc, it)?;
    Ok(Handle::of_parts(Parts::of(it)))
}

/// Takes out what a handle keeps.
fn out_of(alloc: Global, h: &mut Handle) -> Box<Kept, Global>
    requires { h.old.at ≢ null_ptr }
    ensures { result.value ≡ h.old.kept }
{
    mem::replace(h, Handle::none(alloc)).into_parts().into_box()
}

/// Puts it back.
fn put_back(h: &mut Handle, it: Box<Kept, Global>)
    ensures some { h.new.at ≢ null_ptr }
    ensures kept { h.new.kept ≡ it.value }
{
    *h = Handle::of_parts(Parts::of(it));
}

/// Makes a reader. True where there was memory.
#[unsafe(no_mangle)]
pub extern "C" fn reader_new(alloc: Global, out: &mut Handle) -> bool
    ensures reader { result ≡ true → HasReader out.new }
    ensures parts { result ≡ true → parts_of out.new.kept ≡ [] }
{
    match handle_of(alloc, Kept::Reader(Reader::new(alloc))) {
        Ok(handle) => {
            *out = handle;
            true
        }
        Err(_) => false,
    }
}

/// Frees a reader.
#[unsafe(no_mangle)]
pub extern "C" fn reader_free(alloc: Global, reader: &mut Handle)
    requires { HasReader reader.old }
{
    drop(out_of(alloc, reader));
}

/// Reads a post and splits its points into parts, one for each of so many books. A point that ends
/// before `from` or after `until` is left out, and counted. What was read before is gone, also if
/// the post can't be read.
#[unsafe(no_mangle)]
pub extern "C" fn reader_read(
    alloc: Global,
    reader: &mut Handle,
    sender: &[u8],
    body: &[u8],
    books: usize,
    from: u64,
    until: u64,
    out: &mut Answer,
)
    requires reader { HasReader reader.old }
    requires books { 0 < books }
    ensures reader { HasReader reader.new }
    ensures read { out.new.status ≡ DONE → IsRead sender.now body.now books
        (record { from = from; until = until }) (counts_of out.new) (parts_of reader.new.kept) }
    ensures unread { out.new.status ≢ DONE → TellsUnread sender.now body.now out.new
        (parts_of reader.new.kept) }
{
    let mut kept = out_of(alloc, reader);
    let Kept::Reader(it) = &mut *kept else {
        unreachable!()
    };
    *out = calls::read(it, sender, body, books, Window { from, until });
    put_back(reader, kept);
}

/// As `reader_read`, of a body in protobuf.
#[unsafe(no_mangle)]
pub extern "C" fn reader_read_protobuf(
    alloc: Global,
    reader: &mut Handle,
    sender: &[u8],
    body: &[u8],
    books: usize,
    from: u64,
    until: u64,
    out: &mut Answer,
)
    requires reader { HasReader reader.old }
    requires books { 0 < books }
    ensures reader { HasReader reader.new }
    ensures read { out.new.status ≡ DONE → IsReadBytes sender.now body.now books
        (record { from = from; until = until }) (counts_of out.new) (parts_of reader.new.kept) }
    ensures unread { out.new.status ≢ DONE → TellsUnreadBytes sender.now body.now out.new
        (parts_of reader.new.kept) }
{
    let mut kept = out_of(alloc, reader);
    let Kept::Reader(it) = &mut *kept else {
        unreachable!()
    };
    *out = calls::read_protobuf(it, sender, body, books, Window { from, until });
    put_back(reader, kept);
}

/// Says when the points end that the reader has: the least of these times, and the greatest.
#[unsafe(no_mangle)]
pub extern "C" fn reader_ends(alloc: Global, reader: &mut Handle, out: &mut Answer)
    requires { HasReader reader.old }
    ensures reader { HasReader reader.new }
    ensures range { out.new.status ≡ DONE → IsRangeOf (ends_of (parts_of reader.old.kept))
        (range_of out.new) }
    ensures none { out.new.status ≢ DONE → TellsNoPoints (parts_of reader.old.kept) out.new }
    ensures same { reader.new.kept ≡ reader.old.kept }
{
    let kept = out_of(alloc, reader);
    let Kept::Reader(it) = &*kept else {
        unreachable!()
    };
    *out = calls::ends(it);
    put_back(reader, kept);
}

/// Makes room for names. True where there was memory.
#[unsafe(no_mangle)]
pub extern "C" fn names_new(alloc: Global, out: &mut Handle) -> bool
    ensures names { result ≡ true → HasNames out.new }
    ensures none { result ≡ true → names_of out.new.kept ≡ [] }
{
    match handle_of(alloc, Kept::Names(Names::new(alloc))) {
        Ok(handle) => {
            *out = handle;
            true
        }
        Err(_) => false,
    }
}

/// Frees it.
#[unsafe(no_mangle)]
pub extern "C" fn names_free(alloc: Global, names: &mut Handle)
    requires { HasNames names.old }
{
    drop(out_of(alloc, names));
}

/// As `reader_read`, of points by number: their series are among the names, and the words say them
/// in turn.
#[unsafe(no_mangle)]
pub extern "C" fn reader_put(
    alloc: Global,
    reader: &mut Handle,
    names: &mut Handle,
    sender: &[u8],
    words: &[u64],
    books: usize,
    from: u64,
    until: u64,
    out: &mut Answer,
)
    requires reader { HasReader reader.old }
    requires names { HasNames names.old }
    requires books { 0 < books }
    ensures reader { HasReader reader.new }
    ensures names { HasNames names.new }
    ensures put { out.new.status ≡ DONE → IsPut (names_of names.old.kept) sender.now words.now books
        (record { from = from; until = until }) (counts_of out.new) (parts_of reader.new.kept) }
    ensures refused { out.new.status ≢ DONE → TellsNotPut (names_of names.old.kept) sender.now
        words.now out.new (parts_of reader.new.kept) }
    ensures same { names.new.kept ≡ names.old.kept }
{
    let mut kept = out_of(alloc, reader);
    let known = out_of(alloc, names);
    let Kept::Reader(it) = &mut *kept else {
        unreachable!()
    };
    let Kept::Names(them) = &*known else {
        unreachable!()
    };
    *out = calls::put(it, them, sender, words, books, Window { from, until });
    put_back(names, known);
    put_back(reader, kept);
}

/// Says the points that the reader has in words, as `reader_put` takes them: each with a number of
/// its series among the names, where a series without one gets the next one.
#[unsafe(no_mangle)]
pub extern "C" fn reader_words(
    alloc: Global,
    reader: &mut Handle,
    names: &mut Handle,
    words: &mut [u64],
    out: &mut Answer,
)
    requires reader { HasReader reader.old }
    requires names { HasNames names.old }
    ensures reader { HasReader reader.new }
    ensures names { HasNames names.new }
    ensures said { out.new.status ≡ DONE → TellsSaid (names_of names.new.kept) words.old words.new
        (parts_of reader.old.kept) out.new.number }
    ensures refused { out.new.status ≢ DONE → TellsNotSaid (names_of names.new.kept) words.old
        (parts_of reader.old.kept) out.new }
    ensures left { out.new.status ≢ DONE → words.new ≡ words.old }
    ensures count { out.new.status ≢ NO_MEMORY → out.new.at ≡ length (names_of names.new.kept) }
    ensures more { Extends (names_of names.old.kept) (names_of names.new.kept) }
    ensures same { reader.new.kept ≡ reader.old.kept }
{
    let kept = out_of(alloc, reader);
    let mut known = out_of(alloc, names);
    let Kept::Reader(it) = &*kept else {
        unreachable!()
    };
    let Kept::Names(them) = &mut *known else {
        unreachable!()
    };
    *out = calls::words(it, them, words);
    put_back(names, known);
    put_back(reader, kept);
}

/// Writes a request of one point, of the series with this number.
#[unsafe(no_mangle)]
pub extern "C" fn names_text(
    alloc: Global,
    names: &mut Handle,
    number: u64,
    text: &mut [u8],
    out: &mut Answer,
)
    requires { HasNames names.old }
    ensures names { HasNames names.new }
    ensures named { out.new.status ≡ DONE → TellsNamed (names_of names.old.kept) number text.old
        text.new out.new.number }
    ensures refused { out.new.status ≢ DONE → TellsNotNamed (names_of names.old.kept) number
        text.old out.new }
    ensures left { out.new.status ≢ DONE → text.new ≡ text.old }
    ensures same { names.new.kept ≡ names.old.kept }
{
    let known = out_of(alloc, names);
    let Kept::Names(it) = &*known else {
        unreachable!()
    };
    *out = calls::name(it, number, text);
    put_back(names, known);
}

/// Makes a desk of so many books. True where there was memory.
#[unsafe(no_mangle)]
pub extern "C" fn desk_new(alloc: Global, books: usize, out: &mut Handle) -> bool
    ensures desk { result ≡ true → HasDesk out.new }
    ensures count { result ≡ true → length (books_of out.new.kept) ≡ books }
    ensures books { result ≡ true → All (λ b. b ≡ journal_of first_opening [])
        (books_of out.new.kept) }
{
    let Ok(desk) = Desk::new(alloc, books) else {
        return false;
    };
    match handle_of(alloc, Kept::Desk(desk)) {
        Ok(handle) => {
            *out = handle;
            true
        }
        Err(_) => false,
    }
}

/// Frees a desk.
#[unsafe(no_mangle)]
pub extern "C" fn desk_free(alloc: Global, desk: &mut Handle)
    requires { HasDesk desk.old }
{
    drop(out_of(alloc, desk));
}

/// Admits what the reader has read, which is gone from it then: all books have their parts,
/// confirmed, or each is as it was.
#[unsafe(no_mangle)]
pub extern "C" fn desk_admit(
    alloc: Global,
    desk: &mut Handle,
    reader: &mut Handle,
    out: &mut Answer,
)
    requires desk { HasDesk desk.old }
    requires reader { HasReader reader.old }
    ensures desk { HasDesk desk.new }
    ensures reader { HasReader reader.new }
    ensures taken { out.new.status ≡ DONE → Each Keeps (books_of desk.old.kept)
        (books_of desk.new.kept) (parts_of reader.old.kept) }
    ensures none { out.new.status ≡ DONE → post_refusal (books_of desk.old.kept)
        (parts_of reader.old.kept) ≡ None }
    ensures refused { out.new.status ≢ DONE → TellsNotAdmitted (books_of desk.old.kept)
        (parts_of reader.old.kept) out.new }
    ensures same { out.new.status ≢ DONE → books_of desk.new.kept ≡ books_of desk.old.kept }
    ensures gone { parts_of reader.new.kept ≡ [] }
{
    let mut kept = out_of(alloc, desk);
    let mut post = out_of(alloc, reader);
    let Kept::Desk(books) = &mut *kept else {
        unreachable!()
    };
    let Kept::Reader(it) = &mut *post else {
        unreachable!()
    };
    *out = calls::admit(books, it);
    put_back(reader, post);
    put_back(desk, kept);
}

/// Answers what `desk_admit` would; what was read is gone from the reader, and each book is as it
/// was.
#[unsafe(no_mangle)]
pub extern "C" fn desk_try(alloc: Global, desk: &mut Handle, reader: &mut Handle, out: &mut Answer)
    requires desk { HasDesk desk.old }
    requires reader { HasReader reader.old }
    ensures desk { HasDesk desk.new }
    ensures reader { HasReader reader.new }
    ensures none { out.new.status ≡ DONE → post_refusal (books_of desk.old.kept)
        (parts_of reader.old.kept) ≡ None }
    ensures refused { out.new.status ≢ DONE → TellsNotAdmitted (books_of desk.old.kept)
        (parts_of reader.old.kept) out.new }
    ensures same { books_of desk.new.kept ≡ books_of desk.old.kept }
    ensures gone { parts_of reader.new.kept ≡ [] }
{
    let mut kept = out_of(alloc, desk);
    let mut post = out_of(alloc, reader);
    let Kept::Desk(books) = &mut *kept else {
        unreachable!()
    };
    let Kept::Reader(it) = &mut *post else {
        unreachable!()
    };
    *out = calls::try_admit(books, it);
    put_back(reader, post);
    put_back(desk, kept);
}

/// Names the first book, from the `first`-th on, that holds something pending of a series of which
/// the reader has a point in a later stretch of so many nanoseconds.
#[unsafe(no_mangle)]
pub extern "C" fn desk_crosses(
    alloc: Global,
    desk: &mut Handle,
    reader: &mut Handle,
    stretch: u64,
    first: usize,
    out: &mut Answer,
)
    requires desk { HasDesk desk.old }
    requires reader { HasReader reader.old }
    requires stretch { 0 < stretch }
    ensures desk { HasDesk desk.new }
    ensures reader { HasReader reader.new }
    ensures crossing { out.new.status ≡ DONE → IsCrossing stretch (books_of desk.old.kept)
        (parts_of reader.old.kept) first out.new.number }
    ensures none { out.new.status ≢ DONE → TellsNoCrossing stretch (books_of desk.old.kept)
        (parts_of reader.old.kept) first out.new }
    ensures same { desk.new.kept ≡ desk.old.kept }
    ensures left { reader.new.kept ≡ reader.old.kept }
{
    let kept = out_of(alloc, desk);
    let post = out_of(alloc, reader);
    let Kept::Desk(books) = &*kept else {
        unreachable!()
    };
    let Kept::Reader(it) = &*post else {
        unreachable!()
    };
    *out = calls::crosses(books, it, stretch, first);
    put_back(reader, post);
    put_back(desk, kept);
}

/// Makes room for flushes. True where there was memory.
#[unsafe(no_mangle)]
pub extern "C" fn flushes_new(alloc: Global, out: &mut Handle) -> bool
    ensures flushes { result ≡ true → HasFlushes out.new }
    ensures none { result ≡ true → flushes_of out.new.kept ≡ [] }
    ensures text { result ≡ true → text_of out.new.kept ≡ [] }
{
    match handle_of(alloc, Kept::Flushes(Flushes::new(alloc))) {
        Ok(handle) => {
            *out = handle;
            true
        }
        Err(_) => false,
    }
}

/// Frees it.
#[unsafe(no_mangle)]
pub extern "C" fn flushes_free(alloc: Global, flushes: &mut Handle)
    requires { HasFlushes flushes.old }
{
    drop(out_of(alloc, flushes));
}

/// Takes a flush of at most so many series of each book that has some, or none of any.
#[unsafe(no_mangle)]
pub extern "C" fn desk_take(
    alloc: Global,
    desk: &mut Handle,
    flushes: &mut Handle,
    max: usize,
    out: &mut Answer,
)
    requires desk { HasDesk desk.old }
    requires flushes { HasFlushes flushes.old }
    requires low { 1 ≤ max }
    requires high { max ≤ MAX_TAKEN }
    ensures desk { HasDesk desk.new }
    ensures flushes { HasFlushes flushes.new }
    ensures taken { out.new.status ≡ DONE → Each (Takes max) (books_of desk.old.kept)
        (books_of desk.new.kept) (flushes_of flushes.new.kept) }
    ensures none { out.new.status ≡ DONE → take_all_refusal (books_of desk.old.kept) max ≡ None }
    ensures count { out.new.status ≡ DONE → out.new.number ≡ count
        (flushes_of flushes.new.kept) }
    ensures some { out.new.status ≡ DONE → 1 ≤ out.new.number }
    ensures refused { out.new.status ≢ DONE → TellsNotTaken max (books_of desk.old.kept)
        (books_of desk.new.kept) (flushes_of flushes.old.kept) out.new }
    ensures same { out.new.status ≢ DONE → flushes_of flushes.new.kept
        ≡ flushes_of flushes.old.kept }
    ensures text { text_of flushes.new.kept ≡ text_of flushes.old.kept }
{
    let mut kept = out_of(alloc, desk);
    let mut taken = out_of(alloc, flushes);
    let Kept::Desk(books) = &mut *kept else {
        unreachable!()
    };
    let Kept::Flushes(it) = &mut *taken else {
        unreachable!()
    };
    *out = calls::take(books, it, max);
    put_back(flushes, taken);
    put_back(desk, kept);
}

/// Takes a flush of at most so many series of the i-th book alone. It is in the place of that book,
/// so whatever is done with flushes can be done with it.
#[unsafe(no_mangle)]
pub extern "C" fn desk_take_book(
    alloc: Global,
    desk: &mut Handle,
    flushes: &mut Handle,
    i: usize,
    max: usize,
    out: &mut Answer,
)
    requires desk { HasDesk desk.old }
    requires flushes { HasFlushes flushes.old }
    requires low { 1 ≤ max }
    requires high { max ≤ MAX_TAKEN }
    ensures desk { HasDesk desk.new }
    ensures flushes { HasFlushes flushes.new }
    ensures taken { out.new.status ≡ DONE → IsTakenAlone max i (books_of desk.old.kept)
        (books_of desk.new.kept) (flushes_of flushes.new.kept) }
    ensures count { out.new.status ≡ DONE → out.new.number ≡ 1 }
    ensures refused { out.new.status ≢ DONE → TellsNotTakenAlone max i (books_of desk.old.kept)
        (books_of desk.new.kept) (flushes_of flushes.old.kept) out.new }
    ensures same { out.new.status ≢ DONE → flushes_of flushes.new.kept
        ≡ flushes_of flushes.old.kept }
    ensures text { text_of flushes.new.kept ≡ text_of flushes.old.kept }
{
    let mut kept = out_of(alloc, desk);
    let mut taken = out_of(alloc, flushes);
    let Kept::Desk(books) = &mut *kept else {
        unreachable!()
    };
    let Kept::Flushes(it) = &mut *taken else {
        unreachable!()
    };
    *out = calls::take_book(books, it, i, max);
    put_back(flushes, taken);
    put_back(desk, kept);
}

/// Writes the request that forwards the i-th flush.
#[unsafe(no_mangle)]
pub extern "C" fn flushes_text(alloc: Global, flushes: &mut Handle, i: usize, out: &mut Answer)
    requires { HasFlushes flushes.old }
    ensures flushes { HasFlushes flushes.new }
    ensures written { out.new.status ≡ DONE → IsForwarded (flushes_of flushes.old.kept) i
        (text_of flushes.new.kept) (written_of out.new) }
    ensures refused { out.new.status ≢ DONE → TellsNotForwarded (flushes_of flushes.old.kept) i
        out.new }
    ensures none { out.new.status ≢ DONE → text_of flushes.new.kept ≡ [] }
    ensures same { flushes_of flushes.new.kept ≡ flushes_of flushes.old.kept }
{
    let mut taken = out_of(alloc, flushes);
    let Kept::Flushes(it) = &mut *taken else {
        unreachable!()
    };
    *out = calls::write(it, i);
    put_back(flushes, taken);
}

/// Copies the text that was written last, where there is room for it.
#[unsafe(no_mangle)]
pub extern "C" fn flushes_copy(alloc: Global, flushes: &mut Handle, out: &mut [u8]) -> bool
    requires { HasFlushes flushes.old }
    ensures flushes { HasFlushes flushes.new }
    ensures copied { result ≡ true → out.new ≡ text_of flushes.old.kept
        ++ drop (length (text_of flushes.old.kept)) out.old }
    ensures short { result ≡ false → length out.old < length (text_of flushes.old.kept) }
    ensures left { result ≡ false → out.new ≡ out.old }
    ensures same { flushes.new.kept ≡ flushes.old.kept }
{
    let taken = out_of(alloc, flushes);
    let Kept::Flushes(it) = &*taken else {
        unreachable!()
    };
    let is_copied = it.copy_text(out);
    put_back(flushes, taken);
    is_copied
}

/// Settles all flushes: the sink has their points for good.
#[unsafe(no_mangle)]
pub extern "C" fn desk_settle(alloc: Global, desk: &mut Handle, flushes: &mut Handle) -> u32
    requires desk { HasDesk desk.old }
    requires flushes { HasFlushes flushes.old }
    ensures desk { HasDesk desk.new }
    ensures flushes { HasFlushes flushes.new }
    ensures ended { result ≡ DONE → Each (IsEndedBy End.Settle) (books_of desk.old.kept)
        (books_of desk.new.kept) (flushes_of flushes.old.kept) }
    ensures refused { result ≢ DONE → TellsNotEnded End.Settle (books_of desk.old.kept)
        (books_of desk.new.kept) (flushes_of flushes.old.kept) result }
    ensures left { flushes_of flushes.new.kept ≡ left_of result (flushes_of flushes.old.kept) }
    ensures text { text_of flushes.new.kept ≡ text_of flushes.old.kept }
{
    end_all(alloc, desk, flushes, End::Settle)
}

/// Drops all flushes: the sink has refused their points for good.
#[unsafe(no_mangle)]
pub extern "C" fn desk_drop(alloc: Global, desk: &mut Handle, flushes: &mut Handle) -> u32
    requires desk { HasDesk desk.old }
    requires flushes { HasFlushes flushes.old }
    ensures desk { HasDesk desk.new }
    ensures flushes { HasFlushes flushes.new }
    ensures ended { result ≡ DONE → Each (IsEndedBy End.Drop) (books_of desk.old.kept)
        (books_of desk.new.kept) (flushes_of flushes.old.kept) }
    ensures refused { result ≢ DONE → TellsNotEnded End.Drop (books_of desk.old.kept)
        (books_of desk.new.kept) (flushes_of flushes.old.kept) result }
    ensures left { flushes_of flushes.new.kept ≡ left_of result (flushes_of flushes.old.kept) }
    ensures text { text_of flushes.new.kept ≡ text_of flushes.old.kept }
{
    end_all(alloc, desk, flushes, End::Drop)
}

/// Gives all flushes back: their points are pending, as if nothing had been taken.
#[unsafe(no_mangle)]
pub extern "C" fn desk_give_back(alloc: Global, desk: &mut Handle, flushes: &mut Handle) -> u32
    requires desk { HasDesk desk.old }
    requires flushes { HasFlushes flushes.old }
    ensures desk { HasDesk desk.new }
    ensures flushes { HasFlushes flushes.new }
    ensures ended { result ≡ DONE → Each (IsEndedBy End.GiveBack) (books_of desk.old.kept)
        (books_of desk.new.kept) (flushes_of flushes.old.kept) }
    ensures refused { result ≢ DONE → TellsNotEnded End.GiveBack (books_of desk.old.kept)
        (books_of desk.new.kept) (flushes_of flushes.old.kept) result }
    ensures left { flushes_of flushes.new.kept ≡ left_of result (flushes_of flushes.old.kept) }
    ensures text { text_of flushes.new.kept ≡ text_of flushes.old.kept }
{
    end_all(alloc, desk, flushes, End::GiveBack)
}

/// Ends all flushes.
fn end_all(alloc: Global, desk: &mut Handle, flushes: &mut Handle, end: End) -> u32
    requires desk { HasDesk desk.old }
    requires flushes { HasFlushes flushes.old }
    ensures desk { HasDesk desk.new }
    ensures flushes { HasFlushes flushes.new }
    ensures ended { result ≡ DONE → Each (IsEndedBy end) (books_of desk.old.kept)
        (books_of desk.new.kept) (flushes_of flushes.old.kept) }
    ensures refused { result ≢ DONE → TellsNotEnded end (books_of desk.old.kept)
        (books_of desk.new.kept) (flushes_of flushes.old.kept) result }
    ensures left { flushes_of flushes.new.kept ≡ left_of result (flushes_of flushes.old.kept) }
    ensures text { text_of flushes.new.kept ≡ text_of flushes.old.kept }
{
    let mut kept = out_of(alloc, desk);
    let mut taken = out_of(alloc, flushes);
    let Kept::Desk(books) = &mut *kept else {
        unreachable!()
    };
    let Kept::Flushes(it) = &mut *taken else {
        unreachable!()
    };
    let status = calls::end(books, it, end);
    put_back(flushes, taken);
    put_back(desk, kept);
    status
}

/// Quarantines a sender in all books, or in none.
#[unsafe(no_mangle)]
pub extern "C" fn desk_quarantine(alloc: Global, desk: &mut Handle, sender: &[u8]) -> u32
    requires { HasDesk desk.old }
    ensures desk { HasDesk desk.new }
    ensures held { result ≡ DONE → EachBook (Holds sender.now) (books_of desk.old.kept)
        (books_of desk.new.kept) }
    ensures none { result ≡ DONE → hold_refusal (books_of desk.old.kept) sender.now ≡ None }
    ensures refused { result ≢ DONE → TellsNotHeld (books_of desk.old.kept)
        (books_of desk.new.kept) sender.now result }
{
    let mut kept = out_of(alloc, desk);
    let Kept::Desk(books) = &mut *kept else {
        unreachable!()
    };
    let status = calls::quarantine(alloc, books, sender);
    put_back(desk, kept);
    status
}

/// Releases a sender in each book in which it is quarantined.
#[unsafe(no_mangle)]
pub extern "C" fn desk_lift(alloc: Global, desk: &mut Handle, sender: &[u8]) -> u32
    requires { HasDesk desk.old }
    ensures desk { HasDesk desk.new }
    ensures released { result ≡ DONE → EachBook (Releases sender.now) (books_of desk.old.kept)
        (books_of desk.new.kept) }
    ensures held { result ≡ DONE → is_held_in (books_of desk.old.kept) sender.now ≡ true }
    ensures refused { result ≢ DONE → TellsNotLifted (books_of desk.old.kept) sender.now result }
    ensures same { result ≢ DONE → books_of desk.new.kept ≡ books_of desk.old.kept }
{
    let mut kept = out_of(alloc, desk);
    let Kept::Desk(books) = &mut *kept else {
        unreachable!()
    };
    let status = calls::lift(alloc, books, sender);
    put_back(desk, kept);
    status
}

/// Closes the round of the i-th book alone, if its journal has at least so many entries and nothing
/// is open or live there: whether it did.
#[unsafe(no_mangle)]
pub extern "C" fn desk_close_round(
    alloc: Global,
    desk: &mut Handle,
    i: usize,
    entries: usize,
) -> bool
    requires { HasDesk desk.old }
    ensures desk { HasDesk desk.new }
    ensures closed { result ≡ true → IsClosedAlone entries i (books_of desk.old.kept)
        (books_of desk.new.kept) }
    ensures same { result ≡ false → books_of desk.new.kept ≡ books_of desk.old.kept }
{
    let mut kept = out_of(alloc, desk);
    let Kept::Desk(books) = &mut *kept else {
        unreachable!()
    };
    let is_closed = books.close_round(i, entries);
    put_back(desk, kept);
    is_closed
}

/// How many entries the longest of the books' journals has.
#[unsafe(no_mangle)]
pub extern "C" fn desk_entries(alloc: Global, desk: &mut Handle) -> usize
    requires { HasDesk desk.old }
    ensures desk { HasDesk desk.new }
    ensures entries { result ≡ most_entries (books_of desk.old.kept) }
    ensures same { desk.new.kept ≡ desk.old.kept }
{
    let kept = out_of(alloc, desk);
    let Kept::Desk(books) = &*kept else {
        unreachable!()
    };
    let entries = books.entries();
    put_back(desk, kept);
    entries
}

/// How many series all books have.
#[unsafe(no_mangle)]
pub extern "C" fn desk_series(alloc: Global, desk: &mut Handle) -> usize
    requires { HasDesk desk.old }
    ensures desk { HasDesk desk.new }
    ensures series { result ≡ all_series (books_of desk.old.kept) }
    ensures same { desk.new.kept ≡ desk.old.kept }
{
    let kept = out_of(alloc, desk);
    let Kept::Desk(books) = &*kept else {
        unreachable!()
    };
    let series = books.series();
    put_back(desk, kept);
    series
}

/// Writes the report of the i-th book.
#[unsafe(no_mangle)]
pub extern "C" fn desk_report(
    alloc: Global,
    desk: &mut Handle,
    flushes: &mut Handle,
    i: usize,
    out: &mut Answer,
)
    requires desk { HasDesk desk.old }
    requires flushes { HasFlushes flushes.old }
    ensures desk { HasDesk desk.new }
    ensures flushes { HasFlushes flushes.new }
    ensures written { out.new.status ≡ DONE → IsReported (books_of desk.old.kept) i
        (text_of flushes.new.kept) out.new.number }
    ensures refused { out.new.status ≢ DONE → TellsNotReported (books_of desk.old.kept) i out.new }
    ensures none { out.new.status ≢ DONE → flushes.new.kept ≡ flushes.old.kept }
    ensures same { desk.new.kept ≡ desk.old.kept }
    ensures live { flushes_of flushes.new.kept ≡ flushes_of flushes.old.kept }
{
    let kept = out_of(alloc, desk);
    let mut taken = out_of(alloc, flushes);
    let Kept::Desk(books) = &*kept else {
        unreachable!()
    };
    let Kept::Flushes(it) = &mut *taken else {
        unreachable!()
    };
    *out = calls::report(books, it, i);
    put_back(flushes, taken);
    put_back(desk, kept);
}
