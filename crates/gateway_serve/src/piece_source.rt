//! What a request or an answer is read by: a source that takes a bounded piece a call.
ghost use Rattle.std.specs.Prelude.{◌≡◌, ◌≤◌};
ghost use Rattle.http_edge.specs.declared.limits.TheConstants.{MAX_PIECE};

use byte_ends::{Failed, Source};
use http_edge::MAX_PIECE;
use std::io::Read;

/// A source over a reader, of which a call reads at most `MAX_PIECE` bytes. That the last call gave
/// no more is known of it at any time.
#[derive(Drop)]
pub struct PieceSource<R> {
    reader: R,
    failures: u64,
    given: usize,
    ghost short: { given ≤ MAX_PIECE },
}

impl<R: Read> PieceSource<R> {
    /// A source over this reader, with no failed call.
    pub fn new(reader: R) -> Self
        ensures reader { result.reader ≡ reader }
        ensures failures { result.failures ≡ 0 }
    {
        PieceSource {
            reader,
            failures: 0,
            given: 0,
        }
    }

    /// The reader, as the calls have left it.
    pub fn into_reader(self) -> R
        ensures { result ≡ self.reader }
    {
        self.reader
    }
}

impl<R: Read> Source for PieceSource<R> {
    ghost use Rattle.byte_ends.specs.Counts.{next_count};
    ghost use Rattle.byte_ends.specs.inner.Counts.{next_count-differs};

    ghost remaining = { λ s. R.remaining s.reader };

    ghost failures = { λ s. s.failures };

    ghost one_more = { next_count };

    ghost given = { λ s. s.given };

    fn read(&mut self, buf: &mut [u8]) -> Result<usize, Failed> {
        let room = buf.len().min(MAX_PIECE);
        match self.reader.read(&mut buf[..room]) {
            Ok(n) => {
                self.given = n;
                Ok(n)
            }
            Err(_) => {
                self.given = 0;
                self.failures = self.failures.wrapping_add(1);
                Err(Failed)
            }
        }
    }

    ghost tells_one_more = { next_count-differs };
}
