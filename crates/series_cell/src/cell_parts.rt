use crate::batch_span::BatchSpan;
use crate::rows::Rows;
use metric_events::sender_name::SenderName;
use series_id::SharedId;

/// The contents of a cell.
#[derive(Drop)]
pub(crate) struct CellParts {
    pub(crate) owner: SenderName,
    pub(crate) id: SharedId,
    pub(crate) rows: Rows,
    pub(crate) spans: Vec<BatchSpan>,
    /// How many of the spans are in flight.
    pub(crate) cut: usize,
    /// The number of the flush that they are in flight with.
    pub(crate) flush: u64,
    /// The greatest end of the points that are acknowledged or dropped, in nanoseconds; 0 if none
    /// is.
    pub(crate) landed: u64,
}
