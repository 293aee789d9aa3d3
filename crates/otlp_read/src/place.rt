//! The places in a request where a container may have the wrong type.

/// The field of a container that has the wrong type
/// (`opentelemetry/proto/metrics/v1/metrics.proto`, in the proto3 JSON mapping).
#[derive(Clone, Copy, Debug, PartialEq, Eq)]
pub enum Place {
    /// The body itself, an object.
    Root,
    /// `resourceMetrics`, an array of objects.
    ResourceMetrics,
    /// `resource`, an object.
    Resource,
    /// `scopeMetrics`, an array of objects.
    ScopeMetrics,
    /// `scope`, an object.
    Scope,
    /// `metrics`, an array of objects.
    Metrics,
    /// `gauge`, `sum`, `histogram`, `exponentialHistogram` or `summary`, an object.
    DataField,
    /// `dataPoints` in one of these five, an array of objects.
    DataPoints,
}
