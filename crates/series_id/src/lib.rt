//! The identity of a metric series: resource attributes, scope, metric name, unit, kind and point
//! attributes. Two points belong to one series exactly where all of these are equal: texts byte by
//! byte, attributes in any order. Series have a total order, in which they are stored, taken and
//! reported. Each part has a limit of size, and every value of these types is within it.
#![tactic(auto)]

mod attributes;
mod checks;
mod faults;
mod kinds;
pub mod laws;
pub mod limits;
mod scalars;
mod series;
mod shared;
mod shared_parts;
mod sorting;
mod texts;
mod values;
mod written;

pub use attributes::{AttrSet, Attribute};
pub use faults::{AttrFault, IdFault, KindFault};
pub use kinds::{Bounds, Kind};
pub use scalars::{Scalar, Scalars};
pub use series::SeriesId;
pub use shared::SharedId;
pub use texts::Text;
pub use values::AttrValue;
