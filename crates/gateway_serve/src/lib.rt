//! The gateway as a library: its sockets, its threads, and the rounds of its store. What is done
//! with a request and with a flush is `gate_workers`'s, and what the workers share is
//! `shared_book`'s; here are the calls of the system. From the top down: `serving` has connections
//! served in `rounds`, `one_round` shares the book, `workers` starts a thread for each `worker`; a
//! receiver takes a `client_connection` from the `shared_listener`, a flusher sends to the
//! `backend`.
//! No contract can say what a socket gives or takes. So what is proved stands over traits, of what
//! accepts, connects and reads a clock, and of streams; their impls over the system's only forward.
#![tactic(auto)]

mod accept;
mod acceptor;
mod backend;
mod client_connection;
mod fault;
mod one_round;
mod piece_source;
mod reading;
mod rounds;
mod serving;
mod shared_listener;
mod socket;
mod sums;
mod time_limit;
mod timed;
mod uninterrupted;
mod worker;
mod workers;

pub use backend::{Backend, Connect, TcpConnector};
pub use client_connection::{ClientConnection, MOST_REFUSED};
pub use fault::GatewayFault;
pub use serving::{serve_all, serve_bound};
pub use socket::Timeouts;
pub use sums::Sums;
pub use time_limit::{ANSWER_SECONDS, MonotonicClock, REFUSED_SECONDS, REQUEST_SECONDS};
pub use timed::Timed;
pub use uninterrupted::Uninterrupted;
