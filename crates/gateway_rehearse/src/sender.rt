//! The threads that send requests to the gateway.
use crate::client::ask;
use crate::posting::post_of;
use crate::stage::Stage;
use std::alloc::Global;
use std::net::{Net, TcpStream};
use std::sync::Wait;
use std::time::Clock;

/// Orders a flush.
const FLUSH: &[u8] =
    b"POST /flush HTTP/1.1\r\nHost: localhost\r\nContent-Length: 0\r\nConnection: close\r\n\r\n";

/// Asks for the report.
const REPORT: &[u8] = b"GET /report HTTP/1.1\r\nHost: localhost\r\nConnection: close\r\n\r\n";

/// Posts a sender's batches, each once the one before is answered. Where the allocation of
/// a request fails, its connection is made all the same.
pub fn post_all<R: Net<Stream = TcpStream> + Wait + Clock>(
    rt: &R,
    alloc: Global,
    stage: &Stage,
    sender: u16,
) {
    for batch in 0..stage.options.batches {
        match post_of(alloc, sender, batch) {
            Ok(post) => ask(rt, stage, post.as_slice()),
            Err(_) => {
                stage.starve();
                ask(rt, stage, b"");
            }
        }
    }
}

/// Orders so many flushes, one after the other.
pub fn order_flushes<R: Net<Stream = TcpStream> + Wait + Clock>(
    rt: &R,
    stage: &Stage,
    flushes: u16,
) {
    for _ in 0..flushes {
        ask(rt, stage, FLUSH);
    }
}

/// Asks for the report.
pub fn ask_report<R: Net<Stream = TcpStream> + Wait + Clock>(rt: &R, stage: &Stage) {
    ask(rt, stage, REPORT);
}
