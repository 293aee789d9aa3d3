//! The laws of what the service does around the book. Only definitions and proofs: no code of the
//! service is in it, and no proof connects the two (`service/README.md`).
#![tactic(auto)]

pub mod books;
pub mod counting;
pub mod runs;
