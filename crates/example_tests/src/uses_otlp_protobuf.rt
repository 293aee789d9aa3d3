use otlp_protobuf::{Kept, read_request_with};
use std::test::Fail;

/// A point of the counter `a` from 10 to 20 nanoseconds, of value 5.
const BODY: &[u8] = &[
    10, 42, 18, 40, 18, 38, 10, 1, 97, 58, 33, 10, 27, 17, 10, 0, 0, 0, 0, 0, 0, 0, 25, 20, 0, 0,
    0, 0, 0, 0, 0, 49, 5, 0, 0, 0, 0, 0, 0, 0, 16, 1, 24, 1,
];

#[test]
fn reads_a_request(rt: HostRuntime) -> Result<(), Fail> {
    let mut kept = Kept::new(rt.alloc());
    let reading = read_request_with(rt.alloc(), BODY, &mut kept)?;
    assert!(rt; reading.points.as_slice().len() == 1);
    assert!(rt; (reading.foreign, reading.metrics) == (0, 1));
    Ok(())
}
