//! What the examples post.
use metric_events::batch::Batch;
use metric_events::sender_name::SenderName;
use otlp_read::read_request;
use std::alloc::Global;
use std::test::Fail;

/// A request with one point of the counter `a`: value 5, covering (10 ns, 20 ns].
pub const ONE_POINT: &str =
    r#"{"resourceMetrics":[{"scopeMetrics":[{"metrics":[{"name":"a","sum":{"aggregationTemporality":1,"isMonotonic":true,"dataPoints":[{"asInt":"5","startTimeUnixNano":"10","timeUnixNano":"20"}]}}]}]}]}"#;

/// That point, as a batch of the sender `A`.
pub fn one_batch(alloc: Global) -> Result<Batch, Fail> {
    let sender = SenderName::new(alloc, b"A")?;
    let points = read_request(alloc, ONE_POINT.as_bytes())?.points;
    Ok(Batch { sender, points })
}
