//! The work of a worker on a store: it serves a request, makes a flush turn, and exchanges a
//! request with the back end.
//!
//! `serve` and `flush_turn` work on any store (`Store`, `Keeper`). A `BookKeeper` has a `Book` of
//! its own: `serve_book` and `book_turn` say what they do to its journal. A `SharedKeeper` works
//! from a seat of a book that threads share. `receiver_loop` and `flusher_loop` are the loops of
//! those threads. Nothing here opens a connection or tries again. Only a `SharedKeeper` and the
//! loops wait.
#![tactic(auto)]

mod book_keeper;
mod content;
mod flush;
mod handle;
mod laws;
mod order;
mod refusal;
mod request;
mod response;
mod service;
mod shared_keeper;
mod store;
mod worker;

pub use book_keeper::{BookKeeper, SeatedBook, book_turn};
pub use flush::{Turn, Uplink, exchange, flush_turn};
pub use laws::one_request;
pub use order::{CHANNEL_PLACES, Order, OrderFault, Orders, TurnOrder};
pub use refusal::{Allowed, Refusal};
pub use service::{End, Served, serve, serve_book, serve_with};
pub use shared_keeper::SharedKeeper;
pub use store::{Keeper, Store};
pub use worker::{Connection, Connections, NoPace, Pace, Spot, flusher_loop, receiver_loop};
