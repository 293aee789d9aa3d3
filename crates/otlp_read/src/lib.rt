//! Reads the JSON body of an OTLP metrics request (`ExportMetricsServiceRequest`).
//!
//! `read_request` returns the delta sums and histograms, in the order of the document, and counts
//! the foreign points: all others. A container of the wrong type makes the whole request an error.
//! `read_request_with` does the same with a cache of identities, so that points share them.
#![tactic(auto)]

mod attributes;
mod containers;
mod fault;
mod fields;
mod histograms;
mod identity_cache;
mod identity_hash;
mod integers;
mod lists;
mod lookup;
mod members;
mod metrics;
mod place;
mod reader;
mod reading;
mod room;
mod scalar_ref;
mod streams;
mod sums;
mod values;
mod walk;

pub use fault::ReadFault;
pub use identity_cache::IdentityCache;
pub use place::Place;
pub use reading::Reading;
pub use walk::{read_request, read_request_with};
