//! What an answer of the back end means, and what is done with the flush that it answers.
//! `classify` reads the status and `Retry-After` as OTLP/HTTP does ("Failures", "Throttling").
//! `act` says whether the flush is settled, given back or dropped. Without an answer, or after one
//! that the protocol does not know, the flush is given back, and may be sent again.
//! Nothing here allocates or can fail.
#![tactic(auto)]

mod answer;
mod rules;

pub use answer::{Act, Answer};
pub use rules::{act, classify};
