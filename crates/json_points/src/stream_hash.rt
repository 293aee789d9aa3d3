//! The hash of a stream, which is taken only where it is needed.

use crate::identity_hash::IdentityHash;
use crate::stream::Stream;
use crate::streams::Metric;

/// The hash of a stream's resource, scope and metric, once it was needed. A point whose identity
/// comes next as the last time needs none.
#[derive(Clone, Copy)]
pub struct StreamHash {
    known: Option<IdentityHash>,
}

impl StreamHash {
    /// It was not needed yet.
    pub fn none() -> StreamHash {
        StreamHash { known: None }
    }

    /// The hash of this stream, which is the same one at each call.
    pub fn of(&mut self, stream: Stream<'_, '_>) -> IdentityHash {
        match self.known {
            Some(hash) => hash,
            None => {
                let hash = taken(stream.metric);
                self.known = Some(hash);
                hash
            }
        }
    }
}

/// The hash of a metric, with its scope and resource.
fn taken(metric: Metric<'_>) -> IdentityHash {
    let mut hash = IdentityHash::new();
    hash.add_set(metric.scope.resource);
    hash.add_text(metric.scope.name);
    hash.add_text(metric.scope.version);
    hash.add_set(metric.scope.attributes);
    hash.add_text(metric.name);
    hash.add_text(metric.unit);
    hash
}
