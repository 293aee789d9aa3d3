//! Closes the round of a book, and says how long the rounds' journals are.
ghost use Rattle.std.specs.Prelude.{◌≡◌, true, false};
ghost use Rattle.book_desk.specs.Rounds.{IsClosed, most_entries};

use delta_book::book::Book;

/// Closes the round of a book whose journal has at least so many entries, where it can.
pub fn close_long(book: &mut Book, entries: usize) -> bool
    ensures closed { result ≡ true → IsClosed entries book.old book.new }
    ensures stays { result ≡ false → book.new ≡ book.old }
{
    if book.journal().len() < entries {
        return false;
    }
    book.close_round().is_ok()
}

/// How many entries the longest of the books' journals has.
#[tactic(auto, using(std::proofs::lemmas::List::Sums::fold_more))]
pub fn count_entries(books: &[Book]) -> usize
    ensures { result ≡ most_entries books.now }
{
    let mut most: usize = 0;
    for book in books {
        most = most.max(book.journal().len());
    }
    most
}
