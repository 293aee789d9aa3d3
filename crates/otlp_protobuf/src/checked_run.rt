//! Attributes of a point that were checked.

ghost use Rattle.otlp_protobuf.specs.inner.Runs.{Passes};

use crate::schema::Message;

/// The fields of so many attributes of a point, which pass its check with so many levels of
/// messages below it at most, and so many fields behind them.
#[derive(Drop)]
pub struct CheckedRun {
    pub message: Message,
    pub bytes: Vec<u8>,
    pub count: usize,
    pub levels: u32,
    pub left: usize,
    ghost passes: { Passes message bytes.items count levels left },
}
