//! The totals of one series: five rows of words, by the state of the points, and the spans of the
//! points that are pending or in flight. A cell represents a list of points, each with its batch
//! and its state, and does not store it. The contract of each call says what it does to that list.
#![tactic(auto)]

pub mod batch_span;
pub mod cell;
mod cell_parts;
pub mod laws;
mod row_block;
pub mod rows;
