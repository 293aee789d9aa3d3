//! Reads the protobuf body of an OTLP metrics request (`ExportMetricsServiceRequest`) with the
//! results of `otlp_read`: a message means what its JSON mapping means.
#![tactic(auto)]

mod after_points;
mod attributes;
mod byte_hash;
mod checked_run;
mod checks;
mod doubles;
mod fault;
mod fields;
mod followed;
mod histogram_gather;
mod histogram_point;
mod histograms;
mod identity_cache;
mod kept;
mod kept_series;
mod kind_ref;
mod known_run;
mod known_runs;
mod known_set;
mod lists;
mod lookup;
mod malformed;
mod metrics;
mod number_list;
mod number_point;
mod numbers;
mod others;
mod point_attributes;
mod point_fields;
mod reader;
mod runs;
mod scalar_ref;
mod scan;
mod schema;
mod set_cache;
mod slots;
mod streams;
mod sums;
mod values;
mod walk;
mod wire;

pub use fault::ReadFault;
pub use kept::Kept;
pub use malformed::Malformed;
pub use walk::read_request_with;
