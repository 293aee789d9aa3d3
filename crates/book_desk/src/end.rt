//! Ends what was taken of many books.
ghost use Rattle.std.specs.Prelude.{◌≡◌, length, true, false};
ghost use Rattle.book_desk.specs.Each.{Each};
ghost use Rattle.book_desk.specs.Ends.{IsEndedBy, MayEndBy, IsStale};
ghost use Rattle.book_desk.specs.Ends.{is_flying, are_live};

use delta_book::book::Book;
use delta_book::flush::Flush;

/// How flushes end.
#[derive(Clone, Copy, Debug, PartialEq, Eq)]
pub enum End {
    /// Their points are acknowledged.
    Settle,
    /// Their points are refused for good.
    Drop,
    /// They never were: their points are pending again.
    GiveBack,
}

/// Ends the flush of one book, where it has one. False where that is not live.
fn end_one(end: End, book: &mut Book, flush: &mut Option<Flush>) -> bool
    ensures live { result ≡ is_flying book.old flush.old }
    ensures ended { result ≡ true → IsEndedBy end book.old book.new flush.old }
    ensures stale { result ≡ false → IsStale book.old book.new flush.old }
{
    let Some(flush) = flush.take() else {
        return true;
    };
    match end {
        End::Settle => book.settle(0, flush.number).is_ok(),
        End::Drop => book.drop_flush(0, flush.number).is_ok(),
        End::GiveBack => book.give_back(0, flush.number).is_ok(),
    }
}

/// Ends the flush of each book that has one. False where one of them is not live.
pub(crate) fn end_each(end: End, books: &mut [Book], flushes: &mut [Option<Flush>]) -> bool
    requires { length books.old ≡ length flushes.old }
    ensures live { result ≡ are_live books.old flushes.old }
    ensures ended { result ≡ true → Each (IsEndedBy end) books.old books.new flushes.old }
    ensures each { Each (MayEndBy end) books.old books.new flushes.old }
{
    if books.is_empty() {
        return true;
    }
    let is_first = end_one(end, &mut books[0], &mut flushes[0]);
    let are_others = end_each(end, &mut books[1..], &mut flushes[1..]);
    is_first & are_others
}
