//! One book for many threads. The book is behind a lock, and each thread calls it from its own
//! seat, which stores a receipt of each call that was accepted. A ledger counts the events, so no
//! seat has more receipts than the book has entries. At the end of a round all receipts are
//! compared with the journal. The contract of a shared call is that of the book's call, for some
//! legal journal that has the opening of the book that was passed in and is no shorter than the
//! receipts of the seat.
#![tactic(auto)]

pub mod audit;
mod locked;
pub mod receipt;
pub mod round;
pub mod seat;
pub mod shared;
mod tally;
