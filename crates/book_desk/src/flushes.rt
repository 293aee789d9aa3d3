//! What was taken of many books and is not ended.
ghost use Rattle.std.specs.Prelude.{◌≡◌, ◌<◌, ◌++◌, [], drop, length, true, false};
ghost use Rattle.std.specs.Prelude.{IfOk, IfErr, OnErr};
ghost use Rattle.book_desk.specs.Written.{IsForwarded, IsNotForwarded};
ghost use Rattle.std.specs.Prelude.{option_map};
ghost use Rattle.book_desk.specs.Takes as takes;

use delta_book::flush::Flush;
use out_texts::request_text;
use std::alloc::{AllocError, Global};

/// Why a text is not written.
#[derive(Clone, Copy, Debug, PartialEq, Eq)]
pub enum TextFault {
    /// There is no such flush, or no such book.
    NoSuch,
    NoMemory,
}

/// A text that was written.
#[derive(Clone, Copy)]
pub struct Written {
    pub bytes: usize,
    /// How many series it has.
    pub series: usize,
}

/// The flushes of the books, one for each book that had something to take, until they are ended;
/// and the text that was written last.
#[derive(Drop)]
pub struct Flushes {
    pub alloc: Global,
    pub flushes: Vec<Option<Flush>>,
    pub text: Vec<u8>,
}

/// The i-th of the flushes that there are.
fn find(flushes: &[Option<Flush>], i: usize) -> Option<&Flush>
    ensures { option_map (λ f. f.now) result ≡ takes.nth flushes.now i }
{
    let mut left = i;
    for flush in flushes {
        if let Some(flush) = flush {
            if left == 0 {
                return Some(flush);
            }
            left -= 1;
        }
    }
    None
}

/// How many flushes there are.
pub(crate) fn count(flushes: &[Option<Flush>]) -> usize
    ensures { result ≡ takes.count flushes.now }
{
    let mut found = 0;
    for flush in flushes {
        if flush.is_some() {
            found += 1;
        }
    }
    found
}

impl Flushes {
    /// No flushes.
    pub fn new(alloc: Global) -> Flushes
        ensures flushes { result.flushes.items ≡ [] }
        ensures text { result.text.items ≡ [] }
    {
        Flushes {
            alloc,
            flushes: Vec::new(alloc),
            text: Vec::new(alloc),
        }
    }

    /// Writes the request that forwards the i-th flush.
    pub fn write_request(&mut self, i: usize) -> Result<Written, TextFault>
        ensures text { IfOk result (λ w. IsForwarded self.old.flushes.items i
            self.new.text.items w) }
        ensures fault { IfErr result (λ e. IsNotForwarded self.old.flushes.items i e) }
        ensures none { OnErr result (self.new.text.items ≡ []) }
        ensures same { self.new.flushes ≡ self.old.flushes }
    {
        self.text = Vec::new(self.alloc);
        let Some(flush) = find(&self.flushes, i) else {
            return Err(TextFault::NoSuch);
        };
        let Ok(text) = request_text(self.alloc, flush) else {
            return Err(TextFault::NoMemory);
        };
        let written = Written {
            bytes: text.len(),
            series: flush.points.as_slice().len(),
        };
        self.text = text;
        Ok(written)
    }

    /// Copies the text that was written last, where there is room for it.
    pub fn copy_text(&self, out: &mut [u8]) -> bool
        ensures copied { result ≡ true → out.new ≡ self.now.text.items
            ++ drop (length self.now.text.items) out.old }
        ensures short { result ≡ false → length out.old < length self.now.text.items }
        ensures same { result ≡ false → out.new ≡ out.old }
    {
        let text = self.text.as_slice();
        if out.len() < text.len() {
            return false;
        }
        out[..text.len()].copy_from_slice(text);
        true
    }
}
