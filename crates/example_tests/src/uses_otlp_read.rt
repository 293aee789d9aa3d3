use otlp_read::read_request;
use std::test::Fail;

/// A point of the counter `a`, and one of a gauge.
const BODY: &str = r#"{"resourceMetrics":[{"scopeMetrics":[{"metrics":[
    {"name":"a","sum":{"aggregationTemporality":1,"isMonotonic":true,"dataPoints":[
        {"asInt":"5","startTimeUnixNano":"10","timeUnixNano":"20"}]}},
    {"name":"g","gauge":{"dataPoints":[{"asInt":"5","timeUnixNano":"20"}]}}]}]}]}"#;

#[test]
fn reads_a_request(rt: HostRuntime) -> Result<(), Fail> {
    let reading = read_request(rt.alloc(), BODY.as_bytes())?;
    assert!(rt; reading.points.as_slice().len() == 1);
    assert!(rt; (reading.foreign, reading.metrics) == (1, 2));
    Ok(())
}
