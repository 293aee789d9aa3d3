//! Posts, and the response to those that are taken.

/// A body with a point of 5 in (10, 20] of the sum `a`, posted.
pub const POSTED: &[u8] = b"POST /v1/metrics HTTP/1.1\r\n\
    Content-Type: application/json\r\n\
    Content-Length: 195\r\n\r\n\
    {\"resourceMetrics\":[{\"scopeMetrics\":[{\"metrics\":[{\"name\":\"a\",\"sum\":\
    {\"aggregationTemporality\":1,\"isMonotonic\":true,\"dataPoints\":[\
    {\"asInt\":\"5\",\"startTimeUnixNano\":\"10\",\"timeUnixNano\":\"20\"}]}}]}]}]}";

/// The first of the sum `b`.
pub const OTHER: &[u8] = b"POST /v1/metrics HTTP/1.1\r\n\
    Content-Type: application/json\r\n\
    Content-Length: 195\r\n\r\n\
    {\"resourceMetrics\":[{\"scopeMetrics\":[{\"metrics\":[{\"name\":\"b\",\"sum\":\
    {\"aggregationTemporality\":1,\"isMonotonic\":true,\"dataPoints\":[\
    {\"asInt\":\"5\",\"startTimeUnixNano\":\"10\",\"timeUnixNano\":\"20\"}]}}]}]}]}";

/// All of the response to a post that is taken, 91 bytes.
pub const ACCEPTED: &[u8] = b"HTTP/1.1 200 OK\r\n\
    Content-Type: application/json\r\n\
    Content-Length: 2\r\n\
    Connection: close\r\n\r\n\
    {}";
