use byte_ends::{Script, Step, Tape};
use ensure::{ensure, ensure_eq};
use http::{Method, StatusCode};
use http_edge::{
    Decoder, HttpFault, MAX_BODY, MAX_HEAD, Reply, Request, Written, read_message, read_response,
    write_post, write_response,
};
use std::alloc::Global;
use std::test::Fail;

const CHUNKED: &[u8] =
    b"POST /v1/metrics HTTP/1.1\r\nContent-Type: application/json\r\nTransfer-Encoding: chunked\r\n\r\n1\r\n{\r\n1\r\n}\r\n0\r\n\r\n";

/// Whether it is the request that `CHUNKED` is.
fn is_posted(request: &Request) -> bool {
    request.method == Method::POST
        && request.target.as_slice() == b"/v1/metrics".as_slice()
        && request.headers.len() == 2
        && request.body.as_slice() == b"{}".as_slice()
}

// The calls of `http_edge` without their contracts: a test reads no more than what they answer.

fn feed(decoder: &mut Decoder, piece: &[u8]) -> Result<bool, HttpFault> {
    decoder.feed(piece)
}

fn read(alloc: Global, source: &mut Script) -> Result<Request, HttpFault> {
    read_message(alloc, source)
}

fn reply_of<'b>(source: &mut Script, head: &'b mut [u8; MAX_HEAD]) -> Result<Reply<'b>, HttpFault> {
    read_response(source, head)
}

/// The fault of the bytes, and None where they are read.
fn fault_of(alloc: Global, bytes: &[u8]) -> Option<HttpFault> {
    let mut source = Script::new(bytes, &[]);
    read(alloc, &mut source).err()
}

#[test]
fn byte_by_byte(rt: HostRuntime) -> Result<(), Fail> {
    let mut decoder = Decoder::new(rt.alloc());
    for (at, byte) in CHUNKED.iter().enumerate() {
        ensure_eq!(feed(&mut decoder, &[*byte]), Ok(at + 1 == CHUNKED.len()));
    }
    // The head has 89 bytes, and the body 2.
    ensure_eq!(decoder.held(), 91);
    ensure_eq!(feed(&mut decoder, b"GET"), Ok(true));
    let Ok(request) = decoder.finish() else {
        panic!(rt; "no request");
    };
    ensure!(is_posted(&request));
    Ok(())
}

#[test]
fn a_fault_is_answered_again(rt: HostRuntime) -> Result<(), Fail> {
    let mut decoder = Decoder::new(rt.alloc());
    ensure_eq!(
        feed(&mut decoder, b"GET / HTTP/2.0\r\n"),
        Err(HttpFault::BadHead)
    );
    ensure_eq!(feed(&mut decoder, CHUNKED), Err(HttpFault::BadHead));
    ensure_eq!(decoder.held(), 0);
    ensure!(matches!(decoder.finish(), Err(HttpFault::BadHead)));
    Ok(())
}

/// Messages with the fault of each.
const FAULTS: [(&[u8], HttpFault); 14] = [
    (b"", HttpFault::Closed),
    (b"POST", HttpFault::Truncated),
    (b"GET /report HTTP/2.0\r\n\r\n", HttpFault::BadHead),
    (
        b"GET / HTTP/1.1\r\nContent-Length: 2\r\ncontent-length: 2\r\n\r\n{}",
        HttpFault::BadLength,
    ),
    (
        b"GET / HTTP/1.1\r\nContent-Length: 2\r\nTransfer-Encoding: chunked\r\n\r\n{}",
        HttpFault::BadLength,
    ),
    (
        b"GET / HTTP/1.0\r\nTransfer-Encoding: chunked\r\n\r\n0\r\n\r\n",
        HttpFault::BadLength,
    ),
    (
        b"GET / HTTP/1.1\r\nTransfer-Encoding: gzip\r\n\r\n",
        HttpFault::BadLength,
    ),
    (
        b"GET / HTTP/1.1\r\nContent-Length: +2\r\n\r\n{}",
        HttpFault::BadLength,
    ),
    (
        b"GET / HTTP/1.1\r\nContent-Length: 4194305\r\n\r\n{}",
        HttpFault::BodyTooLong,
    ),
    (
        b"GET / HTTP/1.1\r\nContent-Length: 3\r\n\r\n{}",
        HttpFault::Truncated,
    ),
    (
        b"GET / HTTP/1.1\r\nTransfer-Encoding: chunked\r\n\r\n2\r\n{}xx",
        HttpFault::BadChunk,
    ),
    (
        b"GET / HTTP/1.1\r\nTransfer-Encoding: chunked\r\n\r\n2\r\n{",
        HttpFault::Truncated,
    ),
    (
        b"GET / HTTP/1.1\r\nTransfer-Encoding: chunked\r\n\r\n400001\r\n",
        HttpFault::BodyTooLong,
    ),
    (
        b"GET / HTTP/1.1\r\nTransfer-Encoding: chunked\r\n\r\n0\r\n:\r\n\r\n",
        HttpFault::BadChunk,
    ),
];

#[test]
fn faults(rt: HostRuntime) -> Result<(), Fail> {
    for (bytes, fault) in FAULTS {
        ensure_eq!(fault_of(rt.alloc(), bytes), Some(fault));
    }
    Ok(())
}

#[test]
fn what_is_read(rt: HostRuntime) -> Result<(), Fail> {
    let cases: [&[u8]; 5] = [
        b"GET / HTTP/1.0\r\n\r\n",
        b"GET / HTTP/1.1\r\ncontent-length: 007\r\n\r\n1234567 and more",
        b"GET / HTTP/1.1\r\ntransfer-encoding: CHUNKED\r\n\r\nA ;name=value\r\n0123456789\r\n0\r\nTrailer: x\r\n\r\n",
        b"\r\nGET / HTTP/1.1\nHost: h\n\n",
        b"GET / HTTP/1.1\r\nContent-Length: 0\r\n\r\n",
    ];
    for bytes in &cases {
        ensure_eq!(fault_of(rt.alloc(), bytes), None);
    }
    Ok(())
}

#[test]
fn a_failing_reader(rt: HostRuntime) -> Result<(), Fail> {
    let steps = [Step::AtMost(5), Step::Fail];
    let mut source = Script::new(CHUNKED, &steps);
    ensure!(matches!(read(rt.alloc(), &mut source), Err(HttpFault::Io)));
    let mut source = Script::new(b"HTTP/1.1 200 OK\r\n\r\n", &steps);
    let mut head = [0u8; MAX_HEAD];
    ensure!(matches!(reply_of(&mut source, &mut head), Err(HttpFault::Io)));
    Ok(())
}

// A reader whose calls give so many bytes, and that fails when it is asked once more.
fn gives_and_fails<'a>(bytes: &'a [u8], each: usize, steps: &'a mut [Step]) -> Script<'a> {
    let calls = bytes.len().div_ceil(each.max(1));
    for (i, step) in steps.iter_mut().enumerate() {
        *step = if i < calls {
            Step::AtMost(each)
        } else {
            Step::Fail
        };
    }
    Script::new(bytes, steps)
}

#[test]
fn a_reader_is_not_asked_again(rt: HostRuntime) -> Result<(), Fail> {
    let reply = b"HTTP/1.1 200 OK\r\nContent-Length: 9\r\n\r\n";
    let mut head = [0u8; MAX_HEAD];
    for each in [1, 2, 7, 16_384] {
        let mut steps = [Step::Fail; 128];
        let mut source = gives_and_fails(CHUNKED, each, &mut steps);
        let Ok(request) = read(rt.alloc(), &mut source) else {
            panic!(rt; "{each} at a time");
        };
        ensure!(is_posted(&request));
        let mut source = gives_and_fails(reply, each, &mut steps);
        ensure!(reply_of(&mut source, &mut head).is_ok(), each);
    }
    Ok(())
}

const RUN: &[u8] = &[b'a'; 8_192];

#[test]
fn a_head_has_a_limit(rt: HostRuntime) -> Result<(), Fail> {
    let mut endless = Decoder::new(rt.alloc());
    ensure_eq!(feed(&mut endless, RUN), Ok(false));
    ensure_eq!(feed(&mut endless, RUN), Err(HttpFault::HeadTooLong));
    Ok(())
}

#[test]
fn fields_have_a_limit(rt: HostRuntime) -> Result<(), Fail> {
    let mut fields = Decoder::new(rt.alloc());
    ensure_eq!(feed(&mut fields, b"GET / HTTP/1.1\r\n"), Ok(false));
    for _ in 0..64 {
        ensure_eq!(feed(&mut fields, b"a: b\r\n"), Ok(false));
    }
    ensure_eq!(
        feed(&mut fields, b"a: b\r\n"),
        Err(HttpFault::TooManyHeaders)
    );
    Ok(())
}

#[test]
fn a_line_of_a_chunk_has_a_limit(rt: HostRuntime) -> Result<(), Fail> {
    let mut line = Decoder::new(rt.alloc());
    let head = b"GET / HTTP/1.1\r\nTransfer-Encoding: chunked\r\n\r\n";
    ensure_eq!(feed(&mut line, head), Ok(false));
    ensure_eq!(feed(&mut line, b"1;"), Ok(false));
    ensure_eq!(feed(&mut line, RUN), Err(HttpFault::BadChunk));
    Ok(())
}

#[test]
fn a_body_at_the_limit(rt: HostRuntime) -> Result<(), Fail> {
    let mut decoder = Decoder::new(rt.alloc());
    let head = b"GET / HTTP/1.1\r\nTransfer-Encoding: chunked\r\n\r\n400000\r\n";
    ensure_eq!(feed(&mut decoder, head), Ok(false));
    let piece = [b'x'; 16_384];
    for _ in 0..256 {
        ensure_eq!(feed(&mut decoder, &piece), Ok(false));
    }
    ensure_eq!(decoder.held(), 46 + MAX_BODY);
    ensure_eq!(
        feed(&mut decoder, b"\r\n1\r\n"),
        Err(HttpFault::BodyTooLong)
    );
    Ok(())
}

const RESPONSE: &[u8] =
    b"HTTP/1.1 200 OK\r\nContent-Type: application/json\r\nContent-Length: 2\r\nConnection: close\r\n\r\n{}";

#[test]
fn a_failing_writer(rt: HostRuntime) -> Result<(), Fail> {
    let kind = "application/json";
    for n in 1..RESPONSE.len() {
        // One byte a call, and then a call that fails.
        let mut steps = [Step::AtMost(1); 128];
        if n < steps.len() {
            steps[n] = Step::Fail;
        }
        let mut tape = Tape::new(rt.alloc(), &steps);
        let done = write_response(&mut tape, StatusCode::OK, kind, None, b"{}");
        ensure_eq!(done, Written::Part(n));
        ensure_eq!(tape.taken(), &RESPONSE[..n]);
    }
    let mut tape = Tape::new(rt.alloc(), &[Step::Fail]);
    ensure_eq!(write_post(&mut tape, "h", b"{}"), Written::None_);
    Ok(())
}

#[test]
fn calls_of_a_writer(rt: HostRuntime) -> Result<(), Fail> {
    // One call for what fits 1,024 bytes; else one for the head of 91 bytes, and one for the body.
    let kind = "application/json";
    let spaces = [b' '; 2_000];
    let once = [Step::AtMost(4_096), Step::Fail];
    for (size, written) in [
        (2, Written::All),
        (930, Written::All),
        (940, Written::Part(91)),
    ] {
        let mut tape = Tape::new(rt.alloc(), &once);
        let done = write_response(&mut tape, StatusCode::OK, kind, None, &spaces[..size]);
        ensure_eq!(done, written, size);
    }
    let twice = [Step::AtMost(4_096), Step::AtMost(4_096), Step::Fail];
    for size in [940, 1_024, 1_025, 2_000] {
        let mut tape = Tape::new(rt.alloc(), &twice);
        let done = write_response(&mut tape, StatusCode::OK, kind, None, &spaces[..size]);
        ensure_eq!(done, Written::All, size);
    }
    Ok(())
}
