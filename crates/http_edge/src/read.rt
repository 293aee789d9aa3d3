//! Reads a request from a source.
ghost use Rattle.std.specs.Prelude.{◌≡◌, ◌≢◌, Err, IfSome};
ghost use Rattle.std.specs.Io.KnownBytes.{IsAtEnd};
ghost use Rattle.http_edge.specs.Delivery.{Says, StopsReading, IsStillOpen};

use crate::decoder::Decoder;
use crate::fault::HttpFault;
use crate::limits::MAX_PIECE;
use crate::request::Request;
use byte_ends::Source;
use std::alloc::Global;

/// Reads the request that the source's bytes begin with (RFC 9112). Where the bytes of the source
/// are known, each answer says one thing of them:
///
/// - a request: they begin with it;
/// - Closed: there is no byte;
/// - NoMemory: there is a byte (no clause can say that an allocation failed, the tests do);
/// - BodyTooLong: the head is whole, and the size of the body is the first thing that is wrong;
/// - Io: nothing, because a call failed;
/// - each other fault: there is a byte, they begin with no message, and why.
///
/// Truncated comes only at the end of the source, and the limits end a source that never ends.
/// Exactly one call failed at Io, and none at any other answer. The source is not read again once
/// there is a message, or a fault in the head, the length or a chunk: what was read before the last
/// call has neither. Bytes behind the message that came with its last ones are thrown away.
pub fn read_message<S: Source>(alloc: Global, source: &mut S) -> Result<Request, HttpFault>
    ensures says { IfSome (S.remaining source.old) (λ bytes. Says bytes result) }
    ensures stops { StopsReading IsStillOpen
        (S.remaining source.old) (S.remaining source.new) (S.given source.new) }
    ensures truncated { IfSome (S.remaining source.old) (λ _.
        result ≡ Err HttpFault.Truncated → IsAtEnd (S.remaining source.new)) }
    ensures io { result ≡ Err HttpFault.Io →
        S.failures source.new ≡ S.one_more (S.failures source.old) }
    ensures well { result ≢ Err HttpFault.Io → S.failures source.new ≡ S.failures source.old }
{
    let mut decoder = Decoder::new(alloc);
    let mut piece = [0u8; MAX_PIECE];
    'pieces: loop {
        let Ok(n) = source.read(&mut piece) else {
            return Err(HttpFault::Io);
        };
        if n == 0 {
            return decoder.finish();
        }
        if decoder.feed(&piece[..n])? {
            return decoder.finish();
        }
    }
}
