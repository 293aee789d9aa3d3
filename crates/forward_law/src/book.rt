//! The way of a post in protobuf through a book, from its bytes to those that forward it: what
//! these say is proved from the contracts of the calls alone.

ghost use Rattle.std.specs.Prelude.{IfSome};
ghost use Rattle.delta_book.specs.Journal.{history};
ghost use Rattle.forward_law.specs.Book.{IsForwarded, IsSummed};

use delta_book::book::Book;
use metric_events::batch::Batch;
use metric_events::limits::MAX_TAKEN;
use metric_events::sender_name::SenderName;
use otlp_protobuf::{Kept, read_request_with};
use out_texts::request_text;
use std::alloc::Global;

/// Has a book admit a post, and takes what it may: the request that forwards it. `None` where the
/// post has no point of the profile or is refused, where nothing may be taken, or without memory.
pub fn forward(alloc: Global, book: &mut Book, sender: SenderName, bytes: &[u8]) -> Option<Vec<u8>>
    ensures { IfSome result (λ text. IsForwarded (history book.old) (history book.new) sender
        bytes.now text.items) }
{
    let Ok(reading) = read_request_with(alloc, bytes, &mut Kept::new(alloc)) else {
        return None;
    };
    let points = reading.points;
    if points.as_slice().is_empty() {
        return None;
    }
    let Ok(_) = book.admit(0, Batch { sender, points }) else {
        return None;
    };
    let Ok(Some(flush)) = book.take(0, MAX_TAKEN as usize) else {
        return None;
    };
    match request_text(alloc, &flush) {
        Ok(text) => Some(text),
        Err(_) => None,
    }
}

/// The same through a book of its own: each series comes out as one point, the sum of its points.
pub fn forward_alone(alloc: Global, sender: SenderName, bytes: &[u8]) -> Option<Vec<u8>>
    ensures { IfSome result (λ text. IsSummed sender bytes.now text.items) }
{
    let Ok(mut book) = Book::new(alloc) else {
        return None;
    };
    forward(alloc, &mut book, sender, bytes)
}
