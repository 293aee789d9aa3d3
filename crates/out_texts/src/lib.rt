//! The texts that the gateway writes: the request that forwards a flush, the bodies of responses to
//! senders and to flush orders, the report of a store, and the totals of earlier rounds. Each text
//! is the bytes of its definition. The only error is a failed allocation.
#![tactic(auto)]

mod attributes;
mod escape;
mod histogram_points;
mod json_text;
pub mod laws;
mod level;
mod objects;
mod past;
mod points;
mod report;
mod request;
mod runs;
mod series_name;
mod status;
mod success;
mod sum_points;
mod turn;
mod values;
mod words;

pub use past::{past_text, put_past};
pub use report::{put_report, report_text};
pub use request::request_text;
pub use series_name::put_series_name;
pub use status::{no_memory_text, status_text};
pub use success::success_text;
pub use turn::turn_text;
pub use words::{put_number, put_row};
