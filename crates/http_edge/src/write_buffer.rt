//! A buffer in which short parts wait for one call of the writer.
ghost use Rattle.std.specs.Prelude.{◌≡◌, ◌≤◌, ◌<◌, ◌+◌, ◌^◌, ◌++◌, [], length, take};
ghost use Rattle.std.specs.Prelude.{IfOk, IfErr, OnOk, is_err};
ghost use Rattle.std.specs.Io.KnownBytes.{Appends};
ghost use Rattle.byte_ends.specs.Counts.{counted};
ghost use Rattle.http_edge.specs.declared.write_buffer.TheConstants.{ROOM};
ghost use Rattle.http_edge.specs.Sent.{Failed};
ghost use Rattle.http_edge.specs.inner.Sent.{IsCut, Ends};

use crate::written::Written;
use byte_ends::Sink;

/// The most bytes that wait.
const ROOM: usize = 1_024;

/// Bytes that wait to be written in one call, and how many were written before them.
#[derive(Drop)]
pub struct WriteBuffer {
    bytes: [u8; ROOM],
    len: usize,
    sent: usize,
    ghost room: { len ≤ ROOM },
}

/// Writes until all bytes are taken or a call fails, and returns how many were taken.
fn write_bytes<K: Sink>(sink: &mut K, bytes: &[u8]) -> usize
    ensures within { result ≤ length bytes.now }
    ensures taken { Appends (K.contents sink.old) (K.contents sink.new) (take result bytes.now) }
    ensures failed { result < length bytes.now →
        K.failures sink.new ≡ K.one_more (K.failures sink.old) }
    ensures well { result ≡ length bytes.now → K.failures sink.new ≡ K.failures sink.old }
{
    let mut at = 0;
    while at < bytes.len() {
        let Ok(n) = sink.write(&bytes[at..]) else {
            return at;
        };
        at += n;
    }
    at
}

/// Writes these bytes where `sent` were written before, and returns how many are written then.
fn send<K: Sink>(sink: &mut K, sent: usize, bytes: &[u8]) -> Result<usize, Written>
    requires { sent + length bytes.now < 2 ^ 64 }
    ensures all { IfOk result (λ n. (n ≡ sent + length bytes.now)
        × Appends (K.contents sink.old) (K.contents sink.new) bytes.now) }
    ensures cut { IfErr result
        (IsCut (K.contents sink.old) (K.contents sink.new) sent bytes.now) }
    ensures failed { K.failures sink.new
        ≡ counted K.one_more (is_err result) (K.failures sink.old) }
{
    let n = write_bytes(sink, bytes);
    if n == bytes.len() {
        return Ok(sent + n);
    }
    if sent + n == 0 {
        return Err(Written::None_);
    }
    Err(Written::Part(sent + n))
}

impl WriteBuffer {
    ghost use Rattle.http_edge.specs.inner.WriteBuffer.{waiting_bytes, Passes};

    /// Nothing waits, and nothing was written.
    pub fn new() -> Self
        ensures none { waiting_bytes result ≡ [] }
        ensures sent { result.sent ≡ 0 }
    {
        WriteBuffer {
            bytes: [0; ROOM],
            len: 0,
            sent: 0,
        }
    }

    /// Lets these bytes wait behind the others.
    fn keep(&mut self, part: &[u8])
        requires { self.old.len + length part.now ≤ ROOM }
        ensures kept { waiting_bytes self.new ≡ waiting_bytes self.old ++ part.now }
        ensures sent { self.new.sent ≡ self.old.sent }
    {
        self.bytes[self.len..self.len + part.len()].copy_from_slice(part);
        self.len += part.len();
    }

    /// Writes what waits.
    fn flush<K: Sink>(&mut self, sink: &mut K) -> Result<(), Written>
        requires { self.old.sent + self.old.len < 2 ^ 64 }
        ensures none { OnOk result (self.new.len ≡ 0) }
        ensures passes { OnOk result
            (Passes (K.contents sink.old) (K.contents sink.new) self.old.sent self.new
            (waiting_bytes self.old)) }
        ensures cut { IfErr result
            (IsCut (K.contents sink.old) (K.contents sink.new) self.old.sent
            (waiting_bytes self.old)) }
        ensures failed { K.failures sink.new
            ≡ counted K.one_more (is_err result) (K.failures sink.old) }
    {
        self.sent = send(sink, self.sent, &self.bytes[..self.len])?;
        self.len = 0;
        Ok(())
    }

    /// Lets the part wait behind the others. Where there is no room for it they are written first,
    /// and a part that is longer than the whole buffer is written after them at once.
    pub fn put<K: Sink>(&mut self, sink: &mut K, part: &[u8]) -> Result<(), Written>
        requires { self.old.sent + length (waiting_bytes self.old) + length part.now < 2 ^ 64 }
        ensures passes { OnOk result
            (Passes (K.contents sink.old) (K.contents sink.new) self.old.sent self.new
            (waiting_bytes self.old ++ part.now)) }
        ensures cut { IfErr result
            (IsCut (K.contents sink.old) (K.contents sink.new) self.old.sent
            (waiting_bytes self.old ++ part.now)) }
        ensures failed { K.failures sink.new
            ≡ counted K.one_more (is_err result) (K.failures sink.old) }
    {
        if part.len() <= ROOM - self.len {
            self.keep(part);
            return Ok(());
        }
        self.flush(sink)?;
        if part.len() <= ROOM {
            self.keep(part);
            return Ok(());
        }
        self.sent = send(sink, self.sent, part)?;
        Ok(())
    }

    /// Writes what waits, and returns how much was written in all.
    pub fn end<K: Sink>(mut self, sink: &mut K) -> Written
        requires { self.sent + length (waiting_bytes self) < 2 ^ 64 }
        ensures text { Ends (K.contents sink.old) (K.contents sink.new) self.sent
            (waiting_bytes self) result }
        ensures failed { Failed K.one_more (K.failures sink.old) (K.failures sink.new) result }
    {
        match self.flush(sink) {
            Ok(()) => Written::All,
            Err(cut) => cut,
        }
    }
}
