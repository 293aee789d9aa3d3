//! A stream that has so many seconds, for all its reads or all its writes.
ghost use Rattle.std.specs.Prelude.{◌≡◌};
ghost use Rattle.std.specs.Io.{ReadsAtMost, WritesAtMost};
ghost use Rattle.std.specs.Io.KnownBytes.{ReadConsumes, WriteAppends};
ghost use Rattle.gateway_serve.specs.TimeLimit.{IsTimedCall, IsUnbegun};

use crate::socket::Timeouts;
use crate::time_limit::{MonotonicClock, TimeLimit};
use std::io;
use std::io::{Read, Write};

/// A stream that has so many seconds for all its calls, from the first on, however slowly the bytes
/// move. Once they are over each call fails and moves no byte. What the stream says of its bytes,
/// this one says.
#[derive(Drop)]
pub struct Timed<S, M> {
    stream: S,
    limit: TimeLimit<M>,
}

impl<S, M: MonotonicClock> Timed<S, M> {
    /// Over this stream, with seconds that have not begun.
    pub fn new(stream: S, clock: M, seconds: u64) -> Self
        ensures stream { result.stream ≡ stream }
        ensures seconds { IsUnbegun result.limit seconds }
    {
        Timed {
            stream,
            limit: TimeLimit::new(clock, seconds),
        }
    }
}

impl<S, M: Drop> Timed<S, M> {
    /// The stream, as the calls have left it.
    pub fn into_stream(self) -> S
        ensures { result ≡ self.stream }
    {
        self.stream
    }
}

impl<S: Read + Timeouts, M: MonotonicClock> Read for Timed<S, M> {
    ghost remaining = { λ r. S.remaining r.stream };

    /// Fails also where the stream takes no bound: no wait is without one.
    fn read(&mut self, buf: &mut [u8]) -> io::Result<usize>
        ensures bound { ReadsAtMost result buf.new }
        ensures bytes { ReadConsumes (S.remaining self.old.stream)
            (S.remaining self.new.stream) result buf.new }
        ensures timed { IsTimedCall M.reads (S.sets_read_timeout self.old.stream)
            self.old.limit self.new.limit result }
    {
        if let Some(wait) = self.limit.next_wait()? {
            self.stream.set_read_timeout(wait)?;
        }
        self.stream.read(buf)
    }
}

impl<S: Write + Timeouts, M: MonotonicClock> Write for Timed<S, M> {
    ghost contents = { λ w. S.contents w.stream };

    /// Fails also where the stream takes no bound: no wait is without one.
    fn write(&mut self, bytes: &[u8]) -> io::Result<usize>
        ensures bound { WritesAtMost result bytes.now }
        ensures bytes { WriteAppends (S.contents self.old.stream)
            (S.contents self.new.stream) result bytes.now }
        ensures timed { IsTimedCall M.reads (S.sets_write_timeout self.old.stream)
            self.old.limit self.new.limit result }
    {
        if let Some(wait) = self.limit.next_wait()? {
            self.stream.set_write_timeout(wait)?;
        }
        self.stream.write(bytes)
    }

    fn flush(&mut self) -> io::Result<()> {
        self.stream.flush()
    }
}
