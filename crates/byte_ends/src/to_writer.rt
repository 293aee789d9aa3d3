ghost use Rattle.std.specs.Prelude.{◌≡◌};

use crate::{Failed, Sink};
use std::io::Write;

/// A sink over any writer of the standard library, such as a socket. It knows its bytes if the
/// writer does. A write that takes no byte of some is a failure. Nothing is flushed.
#[derive(Drop)]
pub struct ToWriter<W> {
    writer: W,
    failures: u64,
}

impl<W: Write> ToWriter<W> {
    ghost use Rattle.byte_ends.specs.Parts.{writer_of};

    /// A sink over this writer, with no failed call.
    pub fn new(writer: W) -> Self
        ensures writer { writer_of result ≡ writer }
        ensures bytes { ⟦<ToWriter<W> as Sink>⟧.contents result ≡ W.contents writer }
        ensures failed { ⟦<ToWriter<W> as Sink>⟧.failures result ≡ 0 }
    {
        ToWriter {
            writer,
            failures: 0,
        }
    }

    /// The writer, with all that was written to it.
    pub fn into_inner(self) -> W
        ensures { result ≡ writer_of self }
    {
        let ToWriter { writer, .. } = self;
        writer
    }
}

impl<W: Write> Sink for ToWriter<W> {
    ghost use Rattle.byte_ends.specs.Counts.{next_count};
    ghost use Rattle.byte_ends.specs.inner.Counts.{next_count-differs};

    ghost contents = { λ s. W.contents s.writer };

    ghost failures = { λ s. s.failures };

    ghost one_more = { next_count };

    fn write(&mut self, bytes: &[u8]) -> Result<usize, Failed> {
        match self.writer.write(bytes) {
            Ok(n) if n > 0 || bytes.is_empty() => Ok(n),
            _ => {
                self.failures = self.failures.wrapping_add(1);
                Err(Failed)
            }
        }
    }

    ghost tells_one_more = { next_count-differs };
}
