//! What the senders of a rehearsal post.
ghost use Rattle.std.specs.Prelude.{◌≡◌, ◌++◌, ◌<◌, ◌^◌, IfOk, OnOk};
ghost use Rattle.gateway_rehearse.specs.Posts as spec;

use out_texts::put_number;
use std::alloc::{AllocError, Global};

/// Puts a number in decimal between two texts.
fn put_between(
    out: &mut Vec<u8>,
    before: &[u8],
    number: u64,
    after: &[u8],
) -> Result<(), AllocError>
    ensures { OnOk result (out.new.items ≡ out.old.items
        ++ spec.between before.now number after.now) }
{
    out.extend_from_slice(before)?;
    put_number(out, number)?;
    out.extend_from_slice(after)
}

/// Puts the metric's name and its fields, up to the value of its one point.
fn put_metric(out: &mut Vec<u8>, sender: u64) -> Result<(), AllocError>
    ensures { OnOk result (out.new.items ≡ out.old.items ++ spec.metric_text sender) }
{
    put_between(
        out,
        b"{\"resourceMetrics\":[{\"scopeMetrics\":[{\"metrics\":[{\"name\":\"req-",
        sender,
        b"\",\"sum\":{\"aggregationTemporality\":1,\"isMonotonic\":true,\"dataPoints\":[{\"asInt\":\"",
    )
}

/// Puts the value and the span of the point, and the end.
fn put_point(out: &mut Vec<u8>, batch: u64) -> Result<(), AllocError>
    requires { batch < 2 ^ 16 }
    ensures { OnOk result (out.new.items ≡ out.old.items ++ spec.point_text batch) }
{
    put_between(out, b"", batch + 1, b"\",\"startTimeUnixNano\":\"")?;
    put_between(out, b"", 10 * batch + 10, b"\",\"timeUnixNano\":\"")?;
    put_between(out, b"", 10 * batch + 20, b"\"}]}}]}]}]}")
}

/// Puts the head of the request that posts so many bytes.
fn put_head(out: &mut Vec<u8>, sender: u64, size: u64) -> Result<(), AllocError>
    ensures { OnOk result (out.new.items ≡ out.old.items ++ spec.head_text sender size) }
{
    put_between(
        out,
        b"POST /v1/metrics HTTP/1.1\r\nHost: localhost\r\nContent-Type: application/json\r\nX-Sender: s",
        sender,
        b"\r\nContent-Length: ",
    )?;
    put_between(out, b"", size, b"\r\nConnection: close\r\n\r\n")
}

/// A sender's batch, both counted from 0, as the body of a request: one monotonic point.
fn body_of(alloc: Global, sender: u16, batch: u16) -> Result<Vec<u8>, AllocError>
    ensures { IfOk result (λ body. body.items ≡ spec.body_text sender batch) }
{
    let mut body = Vec::new(alloc);
    put_metric(&mut body, sender as u64)?;
    put_point(&mut body, batch as u64)?;
    Ok(body)
}

/// The request that posts a sender's batch, both counted from 0.
pub fn post_of(alloc: Global, sender: u16, batch: u16) -> Result<Vec<u8>, AllocError>
    ensures { IfOk result (λ post. post.items ≡ spec.post_text sender batch) }
{
    let body = body_of(alloc, sender, batch)?;
    let mut post = Vec::new(alloc);
    put_head(&mut post, sender as u64, body.len() as u64)?;
    post.extend_from_slice(body.as_slice())?;
    Ok(post)
}
