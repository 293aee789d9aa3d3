//! The way of a post in protobuf through many books, from its bytes to those that forward it: what
//! these say is proved from the contracts of the calls alone.

ghost use Rattle.std.specs.Prelude.{IfSome};
ghost use Rattle.forward_law.specs.Books.{IsForwarded};

use book_desk::desk::Desk;
use book_desk::flushes::Flushes;
use book_desk::reader::Reader;
use book_desk::window::Window;
use metric_events::limits::MAX_TAKEN;
use std::alloc::Global;

/// Has all books admit a post, and takes what it may of each: the request of the i-th flush. `None`
/// where the post can't be read or is refused, where there is no such flush, or without memory.
pub fn forward(
    alloc: Global,
    desk: &mut Desk,
    sender: &[u8],
    bytes: &[u8],
    window: Window,
    i: usize,
) -> Option<Vec<u8>>
    ensures { IfSome result (λ text. IsForwarded desk.old.books.items desk.new.books.items
        sender.now bytes.now window i text.items) }
{
    let books = desk.books.len();
    if books == 0 {
        return None;
    }
    let mut reader = Reader::new(alloc);
    let Ok(_) = reader.read_protobuf(sender, bytes, books, window) else {
        return None;
    };
    let Ok(()) = desk.admit(&mut reader) else {
        return None;
    };
    let mut flushes = Flushes::new(alloc);
    let Ok(_) = desk.take(&mut flushes, MAX_TAKEN as usize) else {
        return None;
    };
    let Ok(_) = flushes.write_request(i) else {
        return None;
    };
    Some(flushes.text)
}
