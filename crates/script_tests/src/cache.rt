//! What a cache of identities shares.

use ensure::ensure_eq;
use metric_events::point::Point;
use otlp_read::{IdentityCache, ReadFault, Reading, read_request_with};
use std::alloc::{AllocError, Global};
use std::process::Abort;
use std::test::Fail;

/// A request of one sum with these data points.
fn sum_of(alloc: Global, points: &str) -> Result<String, AllocError> {
    format!(in alloc;
        r#"{{"resourceMetrics":[{{"scopeMetrics":[{{"metrics":[{{"name":"a","sum":{{"aggregationTemporality":1,"dataPoints":[{points}]}}}}]}}]}}]}}"#
    )
}

/// A request of one sum with one data point of these attributes.
fn sum_about(alloc: Global, attributes: &str) -> Result<String, AllocError> {
    let point = format!(in alloc;
        r#"{{"startTimeUnixNano":10,"timeUnixNano":20,"asInt":1,"attributes":[{attributes}]}}"#
    )?;
    sum_of(alloc, point.as_str())
}

/// That many letters.
fn letters(alloc: Global, count: usize) -> Result<String, AllocError> {
    let mut text = String::new(alloc);
    for _ in 0..count {
        text.push('x')?;
    }
    Ok(text)
}

fn first(reading: &Reading) -> Option<&Point> {
    reading.points.as_slice().first()
}

/// As the library's call, without its contract: a test reads no more than what it answers.
fn read_with(alloc: Global, body: &str, cache: &mut IdentityCache) -> Result<Reading, ReadFault> {
    read_request_with(alloc, body.as_bytes(), cache)
}

/// A request of a resource and a scope with one metric, `data` its name and its data field.
fn metric_of(alloc: Global, data: &str) -> Result<String, AllocError> {
    format!(in alloc;
        r#"{{"resourceMetrics":[{{"resource":{{"attributes":[{{"key":"r","value":{{"arrayValue":{{"values":[{{"intValue":1}},{{"stringValue":"x"}}]}}}}}}]}},"scopeMetrics":[{{"scope":{{"name":"n","version":"v","attributes":[{{"key":"s"}}]}},"metrics":[{{{data}}}]}}]}}]}}"#
    )
}

/// The fields of a metric that is a sum of one point of these attributes.
fn sum_fields(alloc: Global, monotonic: &str, attributes: &str) -> Result<String, AllocError> {
    format!(in alloc;
        r#""name":"m","unit":"By","sum":{{"aggregationTemporality":1,"isMonotonic":{monotonic},"dataPoints":[{{"asInt":1,"startTimeUnixNano":10,"timeUnixNano":20,"attributes":[{attributes}]}}]}}"#
    )
}

/// The fields of a metric that is a histogram of one point of these bounds.
fn histogram_fields(alloc: Global, bounds: &str) -> Result<String, AllocError> {
    format!(in alloc;
        r#""name":"m","unit":"By","histogram":{{"aggregationTemporality":1,"dataPoints":[{{"startTimeUnixNano":10,"timeUnixNano":20,"bucketCounts":[0,0,0],"explicitBounds":{bounds}}}]}}"#
    )
}

const PAIRS: [&str; 7] = [
    "",
    r#"{"key":"a"}"#,
    r#"{"key":"a","value":{"boolValue":true}},{"key":"b","value":{"intValue":"-7"}}"#,
    r#"{"key":"a","value":{"stringValue":"x"}},{"key":"b","value":{"stringValue":""}}"#,
    r#"{"key":"a","value":{"arrayValue":{"values":[{"intValue":1}]}}}"#,
    r#"{"key":"b","value":{"intValue":1}},{"key":"a","value":{"intValue":2}}"#,
    r#"{"key":"q"},{"key":"p"},{"key":"o"},{"key":"n"},{"key":"m"},{"key":"l"},{"key":"k"},{"key":"j"},{"key":"i"},{"key":"h"},{"key":"g"},{"key":"f"},{"key":"e"},{"key":"d"},{"key":"c"},{"key":"b"},{"key":"a"}"#,
];

/// Requests of one point each, of a series of its own each.
fn bodies(alloc: Global) -> Result<Vec<String>, AllocError> {
    let mut bodies = Vec::new(alloc);
    for pairs in PAIRS {
        for monotonic in ["true", "false"] {
            let fields = sum_fields(alloc, monotonic, pairs)?;
            bodies.push(metric_of(alloc, fields.as_str())?)?;
        }
    }
    for bounds in ["[0,5]", "[0,6]", "[-1,5]"] {
        let fields = histogram_fields(alloc, bounds)?;
        bodies.push(metric_of(alloc, fields.as_str())?)?;
    }
    Ok(bodies)
}

/// Reads a body by a cache: so many share the series of its first point. The reading is kept, and
/// the series with it.
fn shares<R: Abort + AllocGlobal>(
    rt: &R,
    body: &str,
    cache: &mut IdentityCache,
    owners: usize,
    readings: &mut Vec<Reading>,
) -> Result<(), Fail> {
    let reading = read_with(rt.alloc(), body, cache)?;
    expect_owners(&reading, owners, body)?;
    readings.push(reading)?;
    Ok(())
}

/// So many share the series of its first point.
fn expect_owners(reading: &Reading, owners: usize, what: &str) -> Result<(), Fail> {
    let point = first(reading).ok_or("a point")?;
    ensure_eq!(point.shared_series().owners(), owners, what);
    Ok(())
}

fn share_all<R: Abort + AllocGlobal>(
    rt: &R,
    bodies: &[String],
    cache: &mut IdentityCache,
    readings: &mut Vec<Reading>,
) -> Result<(), Fail> {
    for owners in 2..5 {
        for body in bodies {
            shares(rt, body.as_str(), cache, owners, readings)?;
        }
    }
    Ok(())
}

/// Series that come again are shared with what a cache holds of them.
#[test]
fn a_cache_shares_what_comes_again(rt: HostRuntime) -> Result<(), Fail> {
    let alloc = rt.alloc();
    let bodies = bodies(alloc)?;
    let mut cache = IdentityCache::new(alloc);
    let mut readings = Vec::new(alloc);
    share_all(&rt, bodies.as_slice(), &mut cache, &mut readings)
}

/// The pairs of a set are one series in any order.
#[test]
fn a_cache_shares_pairs_in_another_order(rt: HostRuntime) -> Result<(), Fail> {
    let alloc = rt.alloc();
    let mut cache = IdentityCache::new(alloc);
    let mut readings = Vec::new(alloc);
    share_pairs(&rt, &mut cache, &mut readings)
}

fn share_pairs<R: Abort + AllocGlobal>(
    rt: &R,
    cache: &mut IdentityCache,
    readings: &mut Vec<Reading>,
) -> Result<(), Fail> {
    let (a, b) = (r#"{"key":"a","value":{"intValue":1}}"#, r#"{"key":"b"}"#);
    for (one, another, owners) in [(a, b, 2), (b, a, 3), (a, b, 4)] {
        let pairs = format!(in rt.alloc(); "{one},{another}")?;
        let reading = read_about(rt, pairs.as_str(), cache)?;
        expect_owners(&reading, owners, pairs.as_str())?;
        readings.push(reading)?;
    }
    Ok(())
}

/// Reads a sum of one point of these attributes by a cache.
fn read_about<R: Abort + AllocGlobal>(
    rt: &R,
    attributes: &str,
    cache: &mut IdentityCache,
) -> Result<Reading, Fail> {
    let body = sum_about(rt.alloc(), attributes)?;
    Ok(read_with(rt.alloc(), body.as_str(), cache)?)
}

/// Reads a sum of one point of a key of that many letters by a cache.
fn read_key<R: Abort + AllocGlobal>(
    rt: &R,
    length: usize,
    cache: &mut IdentityCache,
) -> Result<Reading, Fail> {
    let text = letters(rt.alloc(), length)?;
    let pair = format!(in rt.alloc(); r#"{{"key":"{text}"}}"#)?;
    read_about(rt, pair.as_str(), cache)
}

/// An identity of more than some four thousand bytes is not kept.
#[test]
fn a_cache_keeps_no_large_series(rt: HostRuntime) -> Result<(), Fail> {
    let mut cache = IdentityCache::new(rt.alloc());
    for (length, owners) in [(3900, 2), (4096, 1)] {
        let reading = read_key(&rt, length, &mut cache)?;
        expect_owners(&reading, owners, "a long key")?;
    }
    Ok(())
}

/// A request of a sum with a point of each of a thousand series.
fn thousand_of(alloc: Global, part: u32) -> Result<String, AllocError> {
    let mut points = String::new(alloc);
    for number in 0..1000u32 {
        let comma = if number > 0 { "," } else { "" };
        write!(
            points,
            r#"{comma}{{"startTimeUnixNano":10,"timeUnixNano":20,"asInt":1,"attributes":[{{"key":"{part} {number}"}}]}}"#
        )?;
    }
    sum_of(alloc, points.as_str())
}

/// Reads a thousand series by a cache.
fn read_thousand<R: Abort + AllocGlobal>(
    rt: &R,
    part: u32,
    cache: &mut IdentityCache,
) -> Result<(), Fail> {
    let body = thousand_of(rt.alloc(), part)?;
    let reading = read_with(rt.alloc(), body.as_str(), cache)?;
    ensure_eq!(reading.points.as_slice().len(), 1000);
    Ok(())
}

/// Once each slot has an identity, a new one takes the place of another.
#[test]
fn a_cache_takes_in_what_is_new(rt: HostRuntime) -> Result<(), Fail> {
    let mut cache = IdentityCache::new(rt.alloc());
    for part in 0..200u32 {
        read_thousand(&rt, part, &mut cache)?;
    }
    for key in ["a", "b", "c", "d", "e", "f", "g", "h"] {
        let pair = format!(in rt.alloc(); r#"{{"key":"{key}"}}"#)?;
        let reading = read_about(&rt, pair.as_str(), &mut cache)?;
        expect_owners(&reading, 2, key)?;
    }
    Ok(())
}
