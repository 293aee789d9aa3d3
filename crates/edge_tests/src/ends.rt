ghost use Rattle.std.specs.Prelude.{◌≡◌, ◌≤◌, IfOk};

use byte_ends::{Failed, FromReader, Script, Sink, Source, Step, Tape, ToWriter, drain};
use ensure::{ensure, ensure_eq};
use std::io;
use std::io::{ErrorKind, Read, Write};
use std::test::Fail;

const TEXT: &[u8] = b"abcdef";

#[test]
fn script_cuts_and_fails(rt: HostRuntime) -> Result<(), Fail> {
    let steps = [Step::AtMost(2), Step::Fail, Step::AtMost(0)];
    let mut source = Script::new(TEXT, &steps);
    let mut buf = [0; 3];
    ensure_eq!(source.read(&mut buf), Ok(2));
    ensure_eq!(&buf[..2], b"ab".as_slice());
    ensure_eq!(source.read(&mut buf), Err(Failed));
    ensure_eq!(source.left(), b"cdef".as_slice());
    ensure_eq!(source.read(&mut buf), Ok(1));
    ensure_eq!(source.read(&mut buf), Ok(3));
    ensure_eq!(buf.as_slice(), b"def".as_slice());
    ensure_eq!(source.read(&mut buf), Ok(0));
    Ok(())
}

#[test]
fn tape_cuts_and_fails(rt: HostRuntime) -> Result<(), Fail> {
    let steps = [
        Step::AtMost(2),
        Step::Fail,
        Step::AtMost(0),
        Step::AtMost(9),
    ];
    let mut sink = Tape::new(rt.alloc(), &steps);
    ensure_eq!(sink.write(TEXT), Ok(2));
    ensure_eq!(sink.write(b"cd"), Err(Failed));
    ensure_eq!(sink.write(b"cd"), Err(Failed));
    ensure_eq!(sink.write(b"cd"), Ok(2));
    ensure_eq!(sink.write(b"ef"), Ok(2));
    ensure_eq!(sink.taken(), TEXT);
    Ok(())
}

#[test]
fn over_a_reader_and_a_writer(rt: HostRuntime) -> Result<(), Fail> {
    let mut source = FromReader::new(TEXT);
    let mut sink = ToWriter::new(Vec::new(rt.alloc()));
    let mut buf = [0; 4];
    for n in [4, 2, 0] {
        ensure_eq!(source.read(&mut buf), Ok(n));
        ensure_eq!(sink.write(&buf[..n]), Ok(n));
    }
    ensure_eq!(sink.into_inner().as_slice(), TEXT);
    Ok(())
}

// A reader and writer of std: its first call fails in that way, or moves no byte at None, and each
// later call moves all.
#[derive(Drop)]
struct FailsOnce {
    first: Option<ErrorKind>,
    calls: u8,
}

impl FailsOnce {
    fn turn(&mut self, len: usize) -> io::Result<usize>
        ensures { IfOk result (λ n. n ≤ len) }
    {
        self.calls = self.calls.saturating_add(1);
        if self.calls > 1 {
            return Ok(len);
        }
        match self.first {
            Some(kind) => Err(io::Error::from(kind)),
            None => Ok(0),
        }
    }
}

impl Read for FailsOnce {
    fn read(&mut self, buf: &mut [u8]) -> io::Result<usize> {
        self.turn(buf.len())
    }
}

impl Write for FailsOnce {
    fn write(&mut self, buf: &[u8]) -> io::Result<usize> {
        self.turn(buf.len())
    }

    fn flush(&mut self) -> io::Result<()> {
        Ok(())
    }
}

// No clause of std's readers and writers counts their calls, so that none forbids a second try.
#[test]
fn a_failed_call_is_not_tried_again(rt: HostRuntime) -> Result<(), Fail> {
    let mut buf = [0; 4];
    for kind in [
        ErrorKind::Interrupted,
        ErrorKind::WouldBlock,
        ErrorKind::ConnectionReset,
    ] {
        let first = Some(kind);
        let mut source = FromReader::new(FailsOnce { first, calls: 0 });
        ensure_eq!(source.read(&mut buf), Err(Failed));
        ensure_eq!(source.read(&mut buf), Ok(4));
        let mut sink = ToWriter::new(FailsOnce { first, calls: 0 });
        ensure_eq!(sink.write(TEXT), Err(Failed));
        ensure_eq!(sink.write(TEXT), Ok(6));
        ensure_eq!(sink.into_inner().calls, 2);
    }
    let (first, calls) = (None, 0);
    let mut sink = ToWriter::new(FailsOnce { first, calls });
    ensure_eq!(sink.write(TEXT), Err(Failed));
    ensure_eq!(sink.into_inner().calls, 1);
    Ok(())
}

#[test]
fn drain_throws_away_what_is_left(rt: HostRuntime) -> Result<(), Fail> {
    let cuts = [Step::AtMost(3), Step::AtMost(9)];
    let mut source = Script::new(TEXT, &cuts);
    ensure_eq!(drain(&mut source, 4), Ok(()));
    ensure_eq!(source.left(), b"ef".as_slice());
    ensure_eq!(drain(&mut source, 9), Ok(()));
    ensure!(source.left().is_empty());
    let fails = [Step::AtMost(2), Step::Fail];
    let mut source = Script::new(TEXT, &fails);
    ensure_eq!(drain(&mut source, 9), Err(Failed));
    ensure_eq!(source.left(), b"cdef".as_slice());
    Ok(())
}

// What a caller of an end may ask for: that no call has failed so far.
fn first_byte<S: Source>(source: &mut S) -> Option<u8>
    requires { S.failures source.old ≡ 0 }
{
    let mut buf = [0];
    match source.read(&mut buf) {
        Ok(1) => Some(buf[0]),
        _ => None,
    }
}

fn sends<K: Sink>(sink: &mut K, bytes: &[u8]) -> bool
    requires { K.failures sink.old ≡ 0 }
{
    sink.write(bytes) == Ok(bytes.len())
}

#[test]
fn new_ends_have_not_failed(rt: HostRuntime) -> Result<(), Fail> {
    let mut taken = Vec::new(rt.alloc());
    ensure_eq!(first_byte(&mut FromReader::new(TEXT)), Some(b'a'));
    ensure_eq!(first_byte(&mut Script::new(TEXT, &[])), Some(b'a'));
    ensure_eq!(first_byte(&mut Script::new(TEXT, &[Step::Fail])), None);
    ensure!(sends(&mut ToWriter::new(&mut taken), TEXT));
    ensure_eq!(taken.as_slice(), TEXT);
    ensure!(sends(&mut Tape::new(rt.alloc(), &[]), TEXT));
    ensure!(!sends(&mut Tape::new(rt.alloc(), &[Step::Fail]), TEXT));
    Ok(())
}
