//! Quarantines a sender in many books, or releases it.
ghost use Rattle.std.specs.Prelude.{◌≡◌, ◌≢◌, None, length, true, false, OnOk, OnErr, IfErr};
ghost use Rattle.book_desk.specs.Each.{EachBook};
ghost use Rattle.book_desk.specs.Holds.{Holds, RestsFrom, Releases, IsReleased, HoldFails};
ghost use Rattle.book_desk.specs.Holds.{hold_refusal, is_held_in};
ghost use Rattle.metric_events.specs.Legal.{is_held};
ghost use Rattle.metric_events.specs.Running.{held_senders};
ghost use Rattle.delta_book.specs.Journal.{history};
ghost use Rattle.delta_book.specs.Refusals.{lift_refusal, quarantine_refusal};

use delta_book::book::Book;
use delta_book::faults::QuarantineFault;
use metric_events::sender_name::SenderName;
use std::alloc::Global;

/// Quarantines the sender in one book.
fn hold(alloc: Global, book: &mut Book, sender: &SenderName) -> Result<(), QuarantineFault>
    ensures ok { OnOk result (Holds sender.now book.old book.new) }
    ensures can { OnOk result (lift_refusal (history book.new) sender.now ≡ None) }
    ensures none { OnOk result (quarantine_refusal (history book.old) sender.now ≡ None) }
    ensures fault { IfErr result (λ e. HoldFails e
        (quarantine_refusal (history book.old) sender.now)) }
    ensures err { OnErr result (book.new ≡ book.old) }
{
    let Ok(name) = sender.copy(alloc) else {
        return Err(QuarantineFault::NoMemory);
    };
    book.quarantine(0, name)
}

/// Releases a sender that was quarantined. That takes no memory and can't fail.
fn unhold(book: &mut Book, sender: &SenderName)
    requires { lift_refusal (history book.old) sender.now ≡ None }
    ensures { IsReleased sender.now book.old book.new }
{
    let Ok(()) = book.lift(0, sender) else {
        unreachable!()
    };
}

/// Releases the sender in a book in which it may be quarantined.
fn lift(book: &mut Book, sender: &SenderName) -> bool
    ensures held { result ≡ is_held sender.now (held_senders (history book.old)) }
    ensures released { Releases sender.now book.old book.new }
{
    book.lift(0, sender).is_ok()
}

/// Quarantines the sender in each book, in order. Where one refuses, it is released in those
/// before.
pub fn hold_each(
    alloc: Global,
    books: &mut [Book],
    sender: &SenderName,
) -> Result<(), QuarantineFault>
    ensures held { OnOk result (EachBook (Holds sender.now) books.old books.new) }
    ensures refused { OnErr result (EachBook (RestsFrom sender.now) books.old books.new) }
    ensures none { OnOk result (hold_refusal books.old sender.now ≡ None) }
    ensures fault { IfErr result (λ e. HoldFails e (hold_refusal books.old sender.now)) }
{
    if books.is_empty() {
        return Ok(());
    }
    if let Err(fault) = hold(alloc, &mut books[0], sender) {
        return Err(fault);
    }
    match hold_each(alloc, &mut books[1..], sender) {
        Ok(()) => Ok(()),
        Err(fault) => {
            unhold(&mut books[0], sender);
            Err(fault)
        }
    }
}

/// Releases the sender in each book in which it is quarantined: whether there is one.
pub fn lift_each(books: &mut [Book], sender: &SenderName) -> bool
    ensures held { result ≡ is_held_in books.old sender.now }
    ensures released { EachBook (Releases sender.now) books.old books.new }
    ensures same { result ≡ false → books.new ≡ books.old }
{
    if books.is_empty() {
        return false;
    }
    let is_first = lift(&mut books[0], sender);
    let are_others = lift_each(&mut books[1..], sender);
    is_first | are_others
}
