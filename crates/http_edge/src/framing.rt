//! How the fields of a head frame its body (RFC 9112, section 6).
ghost use Rattle.std.specs.Prelude.{◌≡◌, ◌∷◌, ◌++◌, [], ◌<◌, length, map, All, MatchResult};
ghost use Rattle.std.specs.Prelude.{option_to_list, option_copied};
ghost use Rattle.httparse.specs.Spans.{header_bytes, IsHeaderWithin};
ghost use Rattle.http_edge.specs.Framing.{is_named, values_of};
ghost use Rattle.http_edge.specs.inner.Framing.{Frames};
ghost use Rattle.http_edge.specs.Framing.{framing_by_length, framing_by_coding, framing_by};

use crate::fault::HttpFault;
use crate::limits::MAX_BODY;
use decimals::capped;
use httparse::spans::HeaderSpan;

/// Where a body ends.
#[derive(Clone, Copy, Debug, PartialEq, Eq)]
pub enum Framing {
    /// After so many bytes.
    Sized(usize),
    /// With its last chunk and the trailers.
    Chunked,
}

/// The header has that name, compared without regard to ASCII case (RFC 9110, section 5.1).
pub fn is_named(buf: &[u8], header: HeaderSpan, name: &[u8]) -> bool
    requires { IsHeaderWithin (length buf.now) header }
    ensures { result ≡ is_named name.now (header_bytes buf.now header) }
{
    header.name.of(buf).eq_ignore_ascii_case(name)
}

/// The value found so far, or that of one more header. An `Err` says that there are two.
#[tactic(auto, unfolding(crate::specs::Framing::values_of))]
fn with_header<'b>(
    buf: &'b [u8],
    name: &[u8],
    found: Option<&'b [u8]>,
    header: HeaderSpan,
) -> Result<Option<&'b [u8]>, HttpFault>
    requires { IsHeaderWithin (length buf.now) header }
    ensures { MatchResult result
        (λ o. option_to_list (option_copied o)
        ≡ option_to_list (option_copied found.entry)
        ++ values_of name.now (header_bytes buf.now header ∷ []))
        (λ e. (e ≡ HttpFault.BadLength)
        × (1 < length (option_to_list (option_copied found.entry)
        ++ values_of name.now (header_bytes buf.now header ∷ [])))) }
{
    if !is_named(buf, header, name) {
        return Ok(found);
    }
    if found.is_some() {
        return Err(HttpFault::BadLength);
    }
    Ok(Some(header.value.of(buf)))
}

/// The value of the one field of that name, if there is one. An `Err` says that there are more.
fn value_of<'b>(
    buf: &'b [u8],
    headers: &[HeaderSpan],
    name: &[u8],
) -> Result<Option<&'b [u8]>, HttpFault>
    requires { All (IsHeaderWithin (length buf.now)) headers.now }
    ensures { MatchResult result
        (λ o. option_to_list (option_copied o)
        ≡ values_of name.now (map (header_bytes buf.now) headers.now))
        (λ e. (e ≡ HttpFault.BadLength)
        × (1 < length (values_of name.now (map (header_bytes buf.now) headers.now)))) }
{
    let mut found: Option<&'b [u8]> = None;
    for header in headers {
        found = with_header(buf, name, found, *header)?;
    }
    Ok(found)
}

/// The framing by the text of a `Content-Length` (RFC 9112, section 6.2).
fn framing_by_length(text: &[u8]) -> Result<Framing, HttpFault>
    ensures { Frames (framing_by_length text.now) result }
{
    let Some(size) = capped(text, MAX_BODY as u64) else {
        return Err(HttpFault::BadLength);
    };
    if size > MAX_BODY as u128 {
        return Err(HttpFault::BodyTooLong);
    }
    Ok(Framing::Sized(size as usize))
}

/// The framing by the text of a `Transfer-Encoding`, in a message of HTTP/1.minor (RFC 9112,
/// section 6.1).
fn framing_by_coding(text: &[u8], minor: u8) -> Result<Framing, HttpFault>
    ensures { Frames (framing_by_coding minor text.now) result }
{
    if text.eq_ignore_ascii_case(b"chunked") && minor == 1 {
        return Ok(Framing::Chunked);
    }
    Err(HttpFault::BadLength)
}

/// How the headers frame the body. A `Transfer-Encoding` has to be the only field that does (RFC
/// 9112, section 6.3).
pub fn frame(buf: &[u8], headers: &[HeaderSpan], minor: u8) -> Result<Framing, HttpFault>
    requires { All (IsHeaderWithin (length buf.now)) headers.now }
    ensures { Frames (framing_by minor (map (header_bytes buf.now) headers.now)) result }
{
    let coding = value_of(buf, headers, b"transfer-encoding")?;
    let size = value_of(buf, headers, b"content-length")?;
    match (coding, size) {
        (None, None) => Ok(Framing::Sized(0)),
        (None, Some(text)) => framing_by_length(text),
        (Some(text), None) => framing_by_coding(text, minor),
        (Some(_), Some(_)) => Err(HttpFault::BadLength),
    }
}
