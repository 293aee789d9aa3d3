//! The back end of a rehearsal: it refuses its first request for a while, and takes all others.
use crate::client::PAUSE;
use crate::stage::Stage;
use byte_ends::FromReader;
use http_edge::read_message;
use std::alloc::Global;
use std::io::Write;
use std::net::TcpStream;
use std::sync::Wait;
use std::thread;
use std::time::{Clock, Duration};

/// The answer to the first request.
const REFUSAL: &[u8] =
    b"HTTP/1.1 503 Service Unavailable\r\nRetry-After: 2\r\nContent-Length: 0\r\nConnection: close\r\n\r\n";

/// The answer to each other request.
const TAKEN: &[u8] =
    b"HTTP/1.1 200 OK\r\nContent-Type: application/json\r\nContent-Length: 2\r\nConnection: close\r\n\r\n{}";

/// Reads a request and answers it. False where there was none: such a connection gets no answer.
fn answer(alloc: Global, stream: &TcpStream, text: &[u8]) -> bool {
    if read_message(alloc, &mut FromReader::new(stream)).is_err() {
        return false;
    }
    let mut writer = stream;
    let _ = writer.write_all(text);
    true
}

/// Answers requests, one connection after another, until the gateway has ended. The listener does
/// not block, so that the end is seen.
pub fn answer_all<R: Wait + Clock>(rt: &R, alloc: Global, stage: &Stage) {
    let mut text = REFUSAL;
    for _ in rt.forever() {
        if stage.has_ended() {
            return;
        }
        match stage.back_end.accept() {
            Err(_) => thread::sleep(rt, Duration::from_millis(PAUSE)),
            Ok((stream, _)) => {
                if answer(alloc, &stream, text) {
                    text = TAKEN;
                }
            }
        }
    }
}
