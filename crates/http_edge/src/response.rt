//! Reads the head of a response (RFC 9112, section 4).
ghost use Rattle.std.specs.Prelude.{◌≡◌, ◌≢◌, ◌≤◌, length, map, All, Err, IfErr, IfOk, IfSome};
ghost use Rattle.std.specs.Prelude.{option_map};
ghost use Rattle.std.specs.Io.KnownBytes.{IsAtEnd};
ghost use Rattle.httparse.specs.Spans.{header_bytes, IsHeaderWithin};
ghost use Rattle.http_edge.specs.Framing.{values_of};
ghost use Rattle.http_edge.specs.Delivery.{StopsReading};
ghost use Rattle.http_edge.specs.Form.{FaultSays};
ghost use Rattle.http_edge.specs.Reply.{first_of, reply_form, IsReplyOpen, SaysReply};
ghost use Rattle.http_edge.specs.inner.Reply.{LooksForReply, IsRead};

use crate::fault::HttpFault;
use crate::framing::is_named;
use crate::limits::{MAX_FIELDS, MAX_HEAD};
use crate::reply::Reply;
use byte_ends::Source;
use httparse::spans::{EMPTY_HEADER_SPAN, HeaderSpan, parse_response};
use httparse::{Error, Status};

/// The value of the first field of that name.
fn first_value<'b>(buf: &'b [u8], headers: &[HeaderSpan], name: &[u8]) -> Option<&'b [u8]>
    requires { All (IsHeaderWithin (length buf.now)) headers.now }
    ensures { option_map (λ v. v.now) result
        ≡ first_of (values_of name.now (map (header_bytes buf.now) headers.now)) }
{
    for header in headers {
        if is_named(buf, *header, name) {
            return Some(header.value.of(buf));
        }
    }
    None
}

/// Looks for the head of a response at the front of the bytes.
fn look_for_reply(buf: &[u8]) -> Result<Option<Reply<'_>>, HttpFault>
    requires { length buf.now ≤ MAX_HEAD }
    ensures { LooksForReply buf.now result }
{
    let mut spans = [EMPTY_HEADER_SPAN; MAX_FIELDS];
    match parse_response(buf, &mut spans) {
        Ok(Status::Complete(head)) => {
            let retry_after = first_value(buf, &spans[..head.headers], b"retry-after");
            Ok(Some(Reply {
                status: head.code,
                retry_after,
            }))
        }
        Ok(Status::Partial) => {
            if buf.len() < MAX_HEAD {
                return Ok(None);
            }
            Err(HttpFault::HeadTooLong)
        }
        Err(Error::TooManyHeaders) => Err(HttpFault::TooManyHeaders),
        Err(_) => Err(HttpFault::BadHead),
    }
}

/// Reads a source into the front of `head` until the head of a response is whole there, and returns
/// how many bytes were read.
fn read_head<S: Source>(source: &mut S, head: &mut [u8; MAX_HEAD]) -> Result<usize, HttpFault>
    ensures whole { IfOk result (λ len. IsRead
        (S.remaining source.old) (S.remaining source.new) len head.new) }
    ensures fault { IfErr result (λ e. IfSome (S.remaining source.old) (FaultSays reply_form e)) }
    ensures stops { StopsReading IsReplyOpen
        (S.remaining source.old) (S.remaining source.new) (S.given source.new) }
    ensures truncated { IfSome (S.remaining source.old) (λ _.
        result ≡ Err HttpFault.Truncated → IsAtEnd (S.remaining source.new)) }
    ensures io { result ≡ Err HttpFault.Io →
        S.failures source.new ≡ S.one_more (S.failures source.old) }
    ensures well { result ≢ Err HttpFault.Io → S.failures source.new ≡ S.failures source.old }
    ensures memory { result ≢ Err HttpFault.NoMemory }
{
    let mut len = 0;
    'pieces: loop {
        let Ok(n) = source.read(&mut head[len..]) else {
            return Err(HttpFault::Io);
        };
        if n == 0 {
            if len == 0 {
                return Err(HttpFault::Closed);
            }
            return Err(HttpFault::Truncated);
        }
        len += n;
        match look_for_reply(&head[..len]) {
            Ok(None) => {}
            Ok(Some(_)) => return Ok(len),
            Err(fault) => return Err(fault),
        }
    }
}

/// Reads the head of the response that the source's bytes begin with (RFC 9112, section 4), and not
/// its body. It is kept in `head`, so no memory is taken. Where the bytes of the source are known,
/// each answer says one thing of them:
///
/// - a reply: they begin with a head that says it;
/// - Closed: there is no byte;
/// - Io: nothing, because a call failed;
/// - BadHead, TooManyHeaders, HeadTooLong, Truncated: there is a byte, they begin with no head, and
///   why. No other fault comes.
///
/// Truncated comes only at the end of the source, and the limits end a source that never ends.
/// Exactly one call failed at Io, and none at any other answer. The source is not read again once
/// there is a head, or what was read shows that none can come: what was read before the last call
/// has no head and can still become one. Bytes behind the head that came with its last ones are
/// thrown away.
pub fn read_response<'b, S: Source>(
    source: &mut S,
    head: &'b mut [u8; MAX_HEAD],
) -> Result<Reply<'b>, HttpFault>
    ensures says { IfSome (S.remaining source.old) (λ bytes. SaysReply bytes result) }
    ensures stops { StopsReading IsReplyOpen
        (S.remaining source.old) (S.remaining source.new) (S.given source.new) }
    ensures truncated { IfSome (S.remaining source.old) (λ _.
        result ≡ Err HttpFault.Truncated → IsAtEnd (S.remaining source.new)) }
    ensures io { result ≡ Err HttpFault.Io →
        S.failures source.new ≡ S.one_more (S.failures source.old) }
    ensures well { result ≢ Err HttpFault.Io → S.failures source.new ≡ S.failures source.old }
    ensures memory { result ≢ Err HttpFault.NoMemory }
{
    match read_head(source, head) {
        Err(fault) => Err(fault),
        // The reply borrows the head, so it is looked for again once no more is read.
        Ok(len) => match look_for_reply(&head[..len]) {
            Ok(Some(reply)) => Ok(reply),
            Ok(None) => unreachable!(),
            Err(fault) => Err(fault),
        },
    }
}
