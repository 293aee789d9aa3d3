//! Requests to the gateway, each on a connection of its own.
use crate::stage::Stage;
use byte_ends::{FromReader, drain};
use std::io::Write;
use std::net::{Net, TcpStream};
use std::sync::Wait;
use std::thread;
use std::time::{Clock, Duration};

/// The most bytes of an answer.
const MOST_ANSWER: usize = 1 << 20;

/// How long to wait before a connection is tried again, or looked for again, in milliseconds.
pub const PAUSE: u64 = 1;

/// A connection to the gateway, tried until there is one; nothing once the gateway has ended. The
/// gateway waits for each connection that it was promised.
fn connection<R: Net<Stream = TcpStream> + Wait + Clock>(
    rt: &R,
    stage: &Stage,
) -> Option<TcpStream> {
    for _ in rt.forever() {
        if stage.has_ended() {
            return None;
        }
        if let Ok(stream) = TcpStream::connect(rt, stage.gateway) {
            return Some(stream);
        }
        thread::sleep(rt, Duration::from_millis(PAUSE));
    }
    unreachable!()
}

/// Sends a request to the gateway, and reads what is answered to its end. The answer itself is not
/// looked at: the report shows what came of it.
pub fn ask<R: Net<Stream = TcpStream> + Wait + Clock>(rt: &R, stage: &Stage, request: &[u8]) {
    let Some(stream) = connection(rt, stage) else {
        return;
    };
    if (&stream).write_all(request).is_err() {
        return;
    }
    let _ = drain(&mut FromReader::new(&stream), MOST_ANSWER);
}
