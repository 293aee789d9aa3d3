//! Which container of a body is wrong, of which the replies of `play` say nothing.

use ensure::ensure_eq;
use otlp_read::{Place, ReadFault, Reading, read_request};
use std::alloc::Global;
use std::test::Fail;

/// As the library's call, without its contract: a test reads no more than what it answers.
fn read(alloc: Global, body: &[u8]) -> Result<Reading, ReadFault> {
    read_request(alloc, body)
}

/// Bodies with the first fault of each.
const FAULTS: [(&str, ReadFault); 16] = [
    ("", ReadFault::NotJson),
    ("[1", ReadFault::NotJson),
    ("{}x", ReadFault::NotJson),
    ("[1e999]", ReadFault::NotJson),
    ("[]", ReadFault::WrongShape(Place::Root)),
    ("null", ReadFault::WrongShape(Place::Root)),
    (
        r#"{"resourceMetrics":{}}"#,
        ReadFault::WrongShape(Place::ResourceMetrics),
    ),
    (
        r#"{"resourceMetrics":[null]}"#,
        ReadFault::WrongShape(Place::ResourceMetrics),
    ),
    (
        r#"{"resourceMetrics":[{"resource":1},{}]}"#,
        ReadFault::WrongShape(Place::Resource),
    ),
    (
        r#"{"resourceMetrics":[{"resource":1},2]}"#,
        ReadFault::WrongShape(Place::ResourceMetrics),
    ),
    (
        r#"{"resourceMetrics":[{"scopeMetrics":"x"}]}"#,
        ReadFault::WrongShape(Place::ScopeMetrics),
    ),
    (
        r#"{"resourceMetrics":[{"scopeMetrics":[{"scope":[]}]}]}"#,
        ReadFault::WrongShape(Place::Scope),
    ),
    (
        r#"{"resourceMetrics":[{"scopeMetrics":[{"metrics":[[]]}]}]}"#,
        ReadFault::WrongShape(Place::Metrics),
    ),
    (
        concat!(
            r#"{"resourceMetrics":[{"scopeMetrics":[{"metrics":["#,
            r#"{"summary":1,"gauge":{"dataPoints":{}}}]}]}]}"#
        ),
        ReadFault::WrongShape(Place::DataPoints),
    ),
    (
        r#"{"resourceMetrics":[{"scopeMetrics":[{"metrics":[{"summary":[]}]}]}]}"#,
        ReadFault::WrongShape(Place::DataField),
    ),
    (
        r#"{"resourceMetrics":[{"scopeMetrics":[{"metrics":[{"sum":{"dataPoints":[{},7]}}]}]}]}"#,
        ReadFault::WrongShape(Place::DataPoints),
    ),
];

#[test]
fn names_the_first_wrong_container(rt: HostRuntime) -> Result<(), Fail> {
    let alloc = rt.alloc();
    for (body, fault) in FAULTS {
        let found = read(alloc, body.as_bytes()).err();
        ensure_eq!(found, Some(fault), body);
    }
    ensure_eq!(read(alloc, b"\"\xff\"").err(), Some(ReadFault::NotJson));
    Ok(())
}
