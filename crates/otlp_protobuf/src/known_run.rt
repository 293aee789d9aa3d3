//! Attributes of a point that are known.

ghost use Rattle.otlp_protobuf.specs.inner.Runs.{SaysRun};

/// The fields of so many attributes, of this number, one after the other.
#[derive(Drop)]
pub struct KnownRun {
    pub number: u32,
    pub bytes: Vec<u8>,
    pub count: usize,
    ghost says: { SaysRun number count bytes.items },
}
