ghost use Rattle.std.specs.Prelude.{◌≡◌};

use crate::{Failed, Source};
use std::io::Read;

/// A source over any reader of the standard library, such as a socket. It knows its bytes if the
/// reader does.
#[derive(Drop)]
pub struct FromReader<R> {
    reader: R,
    failures: u64,
    given: usize,
}

impl<R: Read> FromReader<R> {
    ghost use Rattle.byte_ends.specs.Parts.{reader_of};

    /// A source over this reader, with no failed call.
    pub fn new(reader: R) -> Self
        ensures reader { reader_of result ≡ reader }
        ensures bytes { ⟦<FromReader<R> as Source>⟧.remaining result ≡ R.remaining reader }
        ensures failed { ⟦<FromReader<R> as Source>⟧.failures result ≡ 0 }
    {
        FromReader {
            reader,
            failures: 0,
            given: 0,
        }
    }
}

impl<R: Read> Source for FromReader<R> {
    ghost use Rattle.byte_ends.specs.Counts.{next_count};
    ghost use Rattle.byte_ends.specs.inner.Counts.{next_count-differs};

    ghost remaining = { λ s. R.remaining s.reader };

    ghost failures = { λ s. s.failures };

    ghost one_more = { next_count };

    ghost given = { λ s. s.given };

    fn read(&mut self, buf: &mut [u8]) -> Result<usize, Failed> {
        match self.reader.read(buf) {
            Ok(n) => {
                self.given = n;
                Ok(n)
            }
            Err(_) => {
                self.given = 0;
                self.failures = self.failures.wrapping_add(1);
                Err(Failed)
            }
        }
    }

    ghost tells_one_more = { next_count-differs };
}
