//! A request, and its copy from the bytes of a head.
ghost use Rattle.std.specs.Prelude.{◌≡◌, length, map, All, IfOk};
ghost use Rattle.http_header.specs.Token.{IsToken};
ghost use Rattle.httparse.specs.Spans.{span_bytes, header_bytes, IsHeaderWithin, IsRequestWithin};
ghost use Rattle.http_edge.specs.Framing.{is_named};
ghost use Rattle.http_edge.specs.Find.{first_in, seen_in, HasValues};
ghost use Rattle.http_edge.specs.Request.{header_in, headers_in, message_in};
ghost use Rattle.http_edge.specs.inner.Request.{message_at};

use crate::header::Header;
use http::Method;
use http::method::MethodError;
use httparse::spans::{HeaderSpan, RequestSpans};
use std::alloc::{AllocError, Global};

/// A request: its method, its target and the names of its fields as they were written, the values
/// without the blanks around them, and the body without the chunks that it came in.
#[derive(Debug, Drop)]
pub struct Request {
    pub method: Method,
    pub target: Vec<u8>,
    pub headers: Vec<Header>,
    pub body: Vec<u8>,
}

impl Request {
    /// The value of the first field of that name, and the fields after it. Names are compared
    /// without regard to ASCII case (RFC 9110, section 5.1).
    pub fn find(&self, name: &[u8]) -> Option<(&[u8], &[Header])>
        ensures first { seen_in result ≡ first_in name.now (message_in self.now).headers }
        ensures values { HasValues name.now (message_in self.now).headers (seen_in result) }
    {
        find_in(&self.headers, name)
    }
}

/// The field has that name.
fn is_named(header: &Header, name: &[u8]) -> bool
    ensures { result ≡ is_named name.now (header_in header.now) }
{
    header.name.eq_ignore_ascii_case(name)
}

/// The same of any fields, as of those behind the one that a `find` found.
pub fn find_in<'a>(headers: &'a [Header], name: &[u8]) -> Option<(&'a [u8], &'a [Header])>
    ensures first { seen_in result ≡ first_in name.now (headers_in headers.now) }
    ensures values { HasValues name.now (headers_in headers.now) (seen_in result) }
{
    for (i, header) in headers.iter().enumerate() {
        if is_named(header, name) {
            return Some((header.value.as_slice(), &headers[i + 1..]));
        }
    }
    None
}

fn copy_header(alloc: Global, buf: &[u8], header: HeaderSpan) -> Result<Header, AllocError>
    requires { IsHeaderWithin (length buf.now) header }
    ensures { IfOk result (λ h. header_in h ≡ header_bytes buf.now header) }
{
    let name = Vec::from_slice(alloc, header.name.of(buf))?;
    let value = Vec::from_slice(alloc, header.value.of(buf))?;
    Ok(Header { name, value })
}

fn copy_headers(
    alloc: Global,
    buf: &[u8],
    headers: &[HeaderSpan],
) -> Result<Vec<Header>, AllocError>
    requires { All (IsHeaderWithin (length buf.now)) headers.now }
    ensures { IfOk result (λ hs. headers_in hs.items ≡ map (header_bytes buf.now) headers.now) }
{
    let mut copies = Vec::new(alloc);
    for header in headers {
        copies.push(copy_header(alloc, buf, *header)?)?;
    }
    Ok(copies)
}

/// The method of that name. Every token is one (RFC 9110, section 9.1).
fn method_of(alloc: Global, token: &[u8]) -> Result<Method, AllocError>
    requires { IsToken token.now }
    ensures { IfOk result (λ method. method ≡ token.now) }
{
    match Method::from_bytes(alloc, token) {
        Ok(method) => Ok(method),
        Err(MethodError::OutOfMemory) => Err(AllocError),
        Err(MethodError::Invalid) => unreachable!(),
    }
}

/// The request of a head and a body.
pub fn request_of(
    alloc: Global,
    head: &[u8],
    spans: &[HeaderSpan],
    found: RequestSpans,
    body: Vec<u8>,
) -> Result<Request, AllocError>
    requires within { IsRequestWithin head.now spans.now found }
    requires method { IsToken (span_bytes head.now found.method) }
    ensures { IfOk result (λ r. message_in r ≡ message_at head.now spans.now found body.items) }
{
    let method = method_of(alloc, found.method.of(head))?;
    let target = Vec::from_slice(alloc, found.path.of(head))?;
    let headers = copy_headers(alloc, head, &spans[..found.headers])?;
    Ok(Request {
        method,
        target,
        headers,
        body,
    })
}
