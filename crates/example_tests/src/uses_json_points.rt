use json_points::{Kept, read_request_with, read_usual};
use std::test::Fail;

/// A point of the counter `a`, and one of a gauge.
const BODY: &str = r#"{"resourceMetrics":[{"scopeMetrics":[{"metrics":[
    {"name":"a","sum":{"aggregationTemporality":1,"isMonotonic":true,"dataPoints":[
        {"asInt":"5","startTimeUnixNano":"10","timeUnixNano":"20"}]}},
    {"name":"g","gauge":{"dataPoints":[{"asInt":"5","timeUnixNano":"20"}]}}]}]}]}"#;

#[test]
fn reads_a_usual_request(rt: HostRuntime) -> Result<(), Fail> {
    let alloc = rt.alloc();
    let mut kept = Kept::new(alloc);
    let reading = read_request_with(alloc, BODY.as_bytes(), &mut kept)?;
    assert!(rt; reading.points.as_slice().len() == 1);
    assert!(rt; (reading.foreign, reading.metrics) == (1, 2));
    assert!(rt; read_usual(alloc, BODY.as_bytes(), &mut kept).is_some());
    Ok(())
}
