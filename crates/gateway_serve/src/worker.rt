//! A worker of a round: a receiver or a flusher.
use crate::accept::Listener;
use crate::backend::{Backend, TcpConnector};
use crate::shared_listener::{Incoming, SharedListener};
use crossbeam_channel::{Receiver, Sender};
use gate_workers::{NoPace, Order, SharedKeeper, flusher_loop, receiver_loop};
use gateway_options::ServeOptions;
use shared_book::round::Round;
use shared_book::seat::Seat;
use shared_book::shared::SharedBook;
use std::alloc::Global;
use std::net::{Net, TcpStream};
use std::sync::Wait;
use std::time::Clock;

/// What one worker works on.
#[derive(Drop)]
pub enum Work {
    /// It accepts and serves connections, and orders flushes.
    Receive { order: Sender<Order> },
    /// It carries out the flushes that are ordered.
    Flush { orders: Receiver<Order> },
}

/// Works from a seat until there is no more work, and gives the seat back with all its receipts.
pub fn run_worker<L: Round, R: Net<Stream = TcpStream> + Wait + Clock>(
    rt: &R,
    alloc: Global,
    shared: &SharedBook<L>,
    seat: Seat<L>,
    options: &ServeOptions<'_>,
    listener: &SharedListener<Listener, L>,
    work: Work,
) -> Seat<L> {
    match work {
        Work::Receive { order } => {
            let connections = Incoming::new(listener, rt);
            let mut keeper = SharedKeeper::new(rt, alloc, shared, seat, Some(order));
            receiver_loop(rt, alloc, connections, &mut keeper, &mut NoPace);
            keeper.into_seat()
        }
        Work::Flush { orders } => {
            let mut keeper = SharedKeeper::new(rt, alloc, shared, seat, None);
            let connector = TcpConnector::new(rt, options.backend);
            let mut backend = Backend::new(connector, options.backend);
            let most = options.flush_series;
            flusher_loop(
                rt,
                alloc,
                orders,
                &mut keeper,
                &mut backend,
                &mut NoPace,
                most,
            );
            keeper.into_seat()
        }
    }
}
