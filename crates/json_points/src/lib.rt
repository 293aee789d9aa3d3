//! Reads the usual JSON of OTLP metrics requests without a tree, and hands any other to
//! `otlp_read`: results and errors are the same.
//!
//! `read_request_with` reads a body, and `read_usual` only one that is usual. A text is read into a
//! flat list of its tokens, from which the points are read.
#![tactic(auto)]

mod attributes;
mod containers;
mod fields;
mod follow;
mod followed;
mod histograms;
mod identity_cache;
mod identity_hash;
mod integers;
mod kept;
mod lists;
mod lookup;
mod members;
mod metrics;
mod names;
mod node;
mod numbers;
mod plain;
mod reader;
mod scalar_ref;
mod set_cache;
mod slot;
mod stream;
mod stream_hash;
mod streams;
mod sums;
mod times;
mod unknown;
mod values;
mod walk;

pub use kept::Kept;
pub use walk::{read_request_with, read_usual};
