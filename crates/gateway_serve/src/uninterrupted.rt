//! A stream whose calls are made again where a signal interrupts them.
ghost use Rattle.std.specs.Prelude.{◌≡◌, ◌≢◌, ◌↔◌, IfErr, IsTrue};
ghost use Rattle.std.specs.Io.{ReadsAtMost, WritesAtMost};
ghost use Rattle.std.specs.Io.KnownBytes.{ReadConsumes, WriteAppends};
ghost use Rattle.std.specs.IoError.{error_kind};
ghost use Rattle.std.specs.declared.io.ErrorKind.TheVariants.{Interrupted};

use std::io;
use std::io::{ErrorKind, Read, Write};

/// Whether a signal has interrupted the call.
fn is_interrupted(error: &io::Error) -> bool
    ensures { IsTrue result ↔ (error_kind error.now ≡ Interrupted) }
{
    error.kind() == ErrorKind::Interrupted
}

/// A stream of which a call that a signal has interrupted is made again, as where the process was
/// stopped and goes on. Such a call has moved no byte. What the stream says of its bytes, this one
/// says. Over an end with a time limit each call asks the limit anew, so no call outlasts it.
#[derive(Drop)]
pub struct Uninterrupted<S> {
    stream: S,
}

impl<S> Uninterrupted<S> {
    /// Over this stream.
    pub fn new(stream: S) -> Self
        ensures { result.stream ≡ stream }
    {
        Uninterrupted { stream }
    }

    /// The stream, as the calls have left it.
    pub fn into_stream(self) -> S
        ensures { result ≡ self.stream }
    {
        self.stream
    }
}

impl<S: Read> Read for Uninterrupted<S> {
    ghost remaining = { λ r. S.remaining r.stream };

    /// `TimedOut` also where more calls than a `u64` counts were interrupted.
    fn read(&mut self, buf: &mut [u8]) -> io::Result<usize>
        ensures bound { ReadsAtMost result buf.new }
        ensures bytes { ReadConsumes (S.remaining self.old.stream)
            (S.remaining self.new.stream) result buf.new }
        ensures again { IfErr result (λ e. error_kind e ≢ Interrupted) }
    {
        for _ in 0..u64::MAX {
            match self.stream.read(buf) {
                Err(e) if is_interrupted(&e) => {}
                answer => return answer,
            }
        }
        Err(io::Error::from(ErrorKind::TimedOut))
    }
}

impl<S: Write> Write for Uninterrupted<S> {
    ghost contents = { λ w. S.contents w.stream };

    /// `TimedOut` also where more calls than a `u64` counts were interrupted.
    fn write(&mut self, bytes: &[u8]) -> io::Result<usize>
        ensures bound { WritesAtMost result bytes.now }
        ensures bytes { WriteAppends (S.contents self.old.stream)
            (S.contents self.new.stream) result bytes.now }
        ensures again { IfErr result (λ e. error_kind e ≢ Interrupted) }
    {
        for _ in 0..u64::MAX {
            match self.stream.write(bytes) {
                Err(e) if is_interrupted(&e) => {}
                answer => return answer,
            }
        }
        Err(io::Error::from(ErrorKind::TimedOut))
    }

    fn flush(&mut self) -> io::Result<()> {
        self.stream.flush()
    }
}
