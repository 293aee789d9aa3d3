//! The head of a request (RFC 9112, sections 2 to 5).
ghost use Rattle.std.specs.Prelude.{◌≡◌, ◌≤◌, length};
ghost use Rattle.http_edge.specs.inner.Head.{LooksForHead};

use crate::fault::HttpFault;
use crate::limits::{MAX_FIELDS, MAX_HEAD};
use httparse::spans::{HeaderSpan, RequestSpans, parse_request};
use httparse::{Error, Status};

/// Looks for a head at the front of the bytes.
pub fn look_for_head(
    buf: &[u8],
    spans: &mut [HeaderSpan],
) -> Result<Option<RequestSpans>, HttpFault>
    requires room { length spans.old ≡ MAX_FIELDS }
    requires short { length buf.now ≤ MAX_HEAD }
    ensures { LooksForHead buf.now spans.new result }
{
    match parse_request(buf, spans) {
        Ok(Status::Complete(head)) => Ok(Some(head)),
        Ok(Status::Partial) => {
            if buf.len() < MAX_HEAD {
                return Ok(None);
            }
            Err(HttpFault::HeadTooLong)
        }
        Err(Error::TooManyHeaders) => Err(HttpFault::TooManyHeaders),
        Err(_) => Err(HttpFault::BadHead),
    }
}
