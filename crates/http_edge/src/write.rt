//! Writes messages (RFC 9112, sections 3 to 6).
ghost use Rattle.std.specs.Prelude.{◌≡◌, ◌<◌, ◌+◌, ◌^◌, length, [], IfSome, option_map, unwrap_or};
ghost use Rattle.std.specs.List.{flat_map};
ghost use Rattle.http.specs.StatusCode.{reason_phrase};
ghost use Rattle.http_edge.specs.Sent.{Sent, Failed};
ghost use Rattle.http_edge.specs.Texts.{response_of, response_text, post_text};

use crate::write_buffer::WriteBuffer;
use crate::written::Written;
use byte_ends::Sink;
use http::StatusCode;
use itoa::Buffer;

/// Writes the parts, one behind the other: short ones in one call, as many as the buffer has room
/// for.
fn write_parts<K: Sink>(sink: &mut K, parts: &[&[u8]]) -> Written
    requires { length (flat_map (λ p. p.now) parts.now) < 2 ^ 64 }
    ensures text { Sent (K.contents sink.old) (K.contents sink.new)
        (flat_map (λ p. p.now) parts.now) result }
    ensures failed { Failed K.one_more (K.failures sink.old) (K.failures sink.new) result }
{
    let mut buffer = WriteBuffer::new();
    for part in parts {
        if let Err(cut) = buffer.put(sink, part) {
            return cut;
        }
    }
    buffer.end(sink)
}

/// The reason phrase of a status (RFC 9112, section 4), which is empty where `http` has none.
fn phrase_of(status: StatusCode) -> &'static str
    ensures value { result.now ≡ unwrap_or (reason_phrase status) [] }
    ensures short { length result.now < 64 }
{
    status.canonical_reason().unwrap_or("")
}

/// Writes a response from its parts. Methods come behind their label, or neither is there.
fn write_head<'a, K: Sink>(
    writer: &mut K,
    status: &'a [u8],
    phrase: &'a [u8],
    content_type: &'a [u8],
    size: &'a [u8],
    label: &'a [u8],
    methods: &'a [u8],
    body: &'a [u8],
) -> Written
    requires head { length status.now + length phrase.now + length content_type.now
        + length size.now + length label.now + length methods.now < 2 ^ 40 }
    requires body { length body.now < 2 ^ 63 }
    ensures text { Sent (K.contents writer.old) (K.contents writer.new)
        (response_of status.now phrase.now content_type.now size.now label.now methods.now
        body.now) result }
    ensures failed { Failed K.one_more (K.failures writer.old) (K.failures writer.new) result }
{
    write_parts(
        writer,
        &[
            b"HTTP/1.1 ",
            status,
            b" ",
            phrase,
            b"\r\nContent-Type: ",
            content_type,
            b"\r\nContent-Length: ",
            size,
            label,
            methods,
            b"\r\nConnection: close\r\n\r\n",
            body,
        ],
    )
}

/// Writes a response of that status, with `http`'s phrase for it, and of that body: its media
/// type, its length, the methods that are allowed where there are some, and that the connection
/// is closed (RFC 9112, sections 4, 6.2 and 9.6). It allocates nothing.
pub fn write_response<K: Sink>(
    writer: &mut K,
    status: StatusCode,
    content_type: &str,
    allow: Option<&str>,
    body: &[u8],
) -> Written
    requires content_type { length content_type.now < 2 ^ 32 }
    requires allow { IfSome allow (λ m. length m.now < 2 ^ 32) }
    requires body { length body.now < 2 ^ 63 }
    ensures text { Sent (K.contents writer.old) (K.contents writer.new)
        (response_text status content_type.now (option_map (λ m. m.now) allow.entry) body.now)
        result }
    ensures failed { Failed K.one_more (K.failures writer.old) (K.failures writer.new) result }
{
    let mut digits = Buffer::new();
    let code = status.as_str().as_bytes();
    let phrase = phrase_of(status).as_bytes();
    let size = digits.format(body.len()).as_bytes();
    let kind = content_type.as_bytes();
    match allow {
        None => write_head(writer, code, phrase, kind, size, b"", b"", body),
        Some(methods) => {
            let methods = methods.as_bytes();
            write_head(
                writer,
                code,
                phrase,
                kind,
                size,
                b"\r\nAllow: ",
                methods,
                body,
            )
        }
    }
}

/// Writes a request that posts JSON metrics to that host, and says that the connection is closed
/// (RFC 9112, sections 3, 6.2 and 9.6). It allocates nothing.
pub fn write_post<K: Sink>(writer: &mut K, host: &str, body: &[u8]) -> Written
    requires host { length host.now < 2 ^ 32 }
    requires body { length body.now < 2 ^ 63 }
    ensures text { Sent (K.contents writer.old) (K.contents writer.new)
        (post_text host.now body.now) result }
    ensures failed { Failed K.one_more (K.failures writer.old) (K.failures writer.new) result }
{
    let mut digits = Buffer::new();
    let parts: [&[u8]; 6] = [
        b"POST /v1/metrics HTTP/1.1\r\nHost: ",
        host.as_bytes(),
        b"\r\nContent-Type: application/json\r\nContent-Length: ",
        digits.format(body.len()).as_bytes(),
        b"\r\nConnection: close\r\n\r\n",
        body,
    ];
    write_parts(writer, &parts)
}
