//! A keeper of a book that threads share.
ghost use Rattle.std.specs.Prelude.{◌≡◌, is_some};
ghost use Rattle.gate_workers.specs.SharedCalls.{WorkerGives};

use crate::flush::Turn;
use crate::order::{Order, OrderFault, place_order};
use crate::store::{Keeper, Store};
use crossbeam_channel::Sender;
use delta_book::faults::{
    AdmitFault, NotLive, NotOpen, NotQuarantined, QuarantineFault, TakeFault, UndoFault,
};
use delta_book::flush::Flush;
use delta_book::totals::SeriesTotals;
use metric_events::batch::Batch;
use metric_events::sender_name::SenderName;
use shared_book::round::Round;
use shared_book::seat::Seat;
use shared_book::shared::SharedBook;
use std::alloc::{AllocError, Global};
use std::marker::Model;
use std::sync::Wait;

/// A keeper of a shared book, which works from a seat. Each call takes the book's lock for itself
/// and may wait for it. `order` takes no lock, and may wait for the flusher. Contracts see the
/// seat's receipts, and whether the keeper can order.
#[derive(Drop)]
pub struct SharedKeeper<'a, L: Round, R: Wait> {
    rt: &'a R,
    alloc: Global,
    shared: &'a SharedBook<L>,
    seat: Seat<L>,
    orders: Option<Sender<Order>>,
}

impl<'a, L: Round, R: Wait> Model for SharedKeeper<'a, L, R> {
    ghost use Rattle.std.specs.Prelude.{is_some};
    ghost use Rattle.gate_workers.specs.SharedCalls.{Worker};

    ghost Value = { Worker };

    ghost view = { λ k. record { seat = k.seat; orders = is_some k.orders } };
}

impl<'a, L: Round, R: Wait> SharedKeeper<'a, L, R> {
    /// A keeper that works from this seat and sends its orders here. A flusher has no `orders`, so
    /// that the channel closes once the receivers have ended. Its `order` answers `Gone`.
    pub fn new(
        rt: &'a R,
        alloc: Global,
        shared: &'a SharedBook<L>,
        seat: Seat<L>,
        orders: Option<Sender<Order>>,
    ) -> Self
        ensures seat { result.seat ≡ seat }
        ensures orders { result.orders ≡ is_some orders }
    {
        SharedKeeper {
            rt,
            alloc,
            shared,
            seat,
            orders,
        }
    }

    /// The seat, with all its receipts. The sender for orders is dropped.
    pub fn into_seat(self) -> Seat<L>
        ensures { result ≡ self.entry.seat }
    {
        let SharedKeeper { seat, .. } = self;
        seat
    }
}

impl<'a, L: Round, R: Wait> Store for SharedKeeper<'a, L, R> {
    ghost gives = { λ k c w. WorkerGives L.parts L.opening k c w };

    fn admit(&mut self, body: Batch) -> Result<u64, (AdmitFault, Batch)> {
        self.shared.admit(self.rt, &mut self.seat, body)
    }

    fn undo(&mut self, batch: u64) -> Result<(), UndoFault> {
        self.shared.undo(self.rt, &mut self.seat, batch)
    }

    fn confirm(&mut self, batch: u64) -> Result<(), NotOpen> {
        self.shared.confirm(self.rt, &mut self.seat, batch)
    }

    fn take(&mut self, max: usize) -> Result<Option<Flush>, TakeFault> {
        self.shared.take(self.rt, &mut self.seat, max)
    }

    fn settle(&mut self, flush: u64) -> Result<(), NotLive> {
        self.shared.settle(self.rt, &mut self.seat, flush)
    }

    fn drop_flush(&mut self, flush: u64) -> Result<(), NotLive> {
        self.shared.drop_flush(self.rt, &mut self.seat, flush)
    }

    fn give_back(&mut self, flush: u64) -> Result<(), NotLive> {
        self.shared.give_back(self.rt, &mut self.seat, flush)
    }

    fn quarantine(&mut self, sender: SenderName) -> Result<(), QuarantineFault> {
        self.shared.quarantine(self.rt, &mut self.seat, sender)
    }

    fn lift(&mut self, sender: &SenderName) -> Result<(), NotQuarantined> {
        self.shared.lift(self.rt, &mut self.seat, sender)
    }

    fn totals(&mut self) -> Result<Vec<SeriesTotals>, AllocError> {
        self.shared.totals(self.rt, &mut self.seat)
    }
}

impl<'a, L: Round, R: Wait> Keeper for SharedKeeper<'a, L, R> {
    fn order(&mut self) -> Result<Turn, OrderFault> {
        let Some(orders) = &self.orders else {
            return Err(OrderFault::Gone);
        };
        place_order(self.rt, self.alloc, orders)
    }
}
