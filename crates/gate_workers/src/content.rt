//! Whether a request's body is plain JSON, by its headers.
ghost use Rattle.std.specs.Prelude.{◌≡◌, ◌==◌, position, codes};
ghost use Rattle.gate_workers.specs.Requested as spec;
ghost use Rattle.std.specs.Str.{str_eq_ignore_ascii_case};
ghost use Rattle.std.specs.List.{list_all};
ghost use Rattle.http_edge.specs.Framing.{values_of};
ghost use Rattle.http_edge.specs.Reply.{first_of};
ghost use Rattle.http_edge.specs.Request.{header_in, headers_in};

use http_edge::{Header, find_in};

fn place_of(mark: u8, bytes: &[u8]) -> Option<usize>
    ensures { result ≡ position (λ b. b == mark) bytes.now }
{
    bytes.iter().position(|b| *b == mark)
}

/// The bytes before the first one of this value, or all.
#[tactic(auto, unfolding(crate::specs::Requested::before))]
pub fn before(mark: u8, bytes: &[u8]) -> &[u8]
    ensures { result.now ≡ spec.before mark bytes.now }
{
    match place_of(mark, bytes) {
        None => bytes,
        Some(at) => &bytes[..at],
    }
}

fn is_same(a: &[u8], b: &[u8]) -> bool
    ensures { result ≡ str_eq_ignore_ascii_case a.now b.now }
{
    a.eq_ignore_ascii_case(b)
}

fn are_blanks(bytes: &[u8]) -> bool
    ensures { result ≡ list_all spec.is_blank bytes.now }
{
    bytes.iter().all(|b| *b == b' ' || *b == b'\t')
}

/// Whether the value is these words, in any case, with only blanks behind them.
fn is_words(words: &[u8], value: &[u8]) -> bool
    ensures { result ≡ spec.is_words words.now value.now }
{
    match value.split_at_checked(words.len()) {
        Some((front, behind)) => is_same(front, words) && are_blanks(behind),
        None => false,
    }
}

/// Whether the field names no coding that has to be undone.
fn is_uncoded(header: &Header) -> bool
    ensures { result ≡ spec.is_uncoded (header_in header.now) }
{
    !is_same(&header.name, b"content-encoding") || is_same(&header.value, b"identity")
}

fn are_uncoded(headers: &[Header]) -> bool
    ensures { result ≡ list_all spec.is_uncoded (headers_in headers.now) }
{
    for header in headers {
        if !is_uncoded(header) {
            return false;
        }
    }
    true
}

/// Whether the first content type is JSON's.
fn is_json(headers: &[Header]) -> bool
    ensures { result ≡ spec.is_json_type
        (first_of (values_of (codes "content-type") (headers_in headers.now))) }
{
    match find_in(headers, b"content-type") {
        None => false,
        Some((value, _)) => is_words(b"application/json", before(b';', value)),
    }
}

/// Whether the body is JSON without a content coding (RFC 9110, sections 8.3 and 8.4).
pub fn is_plain_json(headers: &[Header]) -> bool
    ensures { result ≡ spec.is_plain_json (headers_in headers.now) }
{
    is_json(headers) && are_uncoded(headers)
}
