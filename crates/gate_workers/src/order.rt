//! Orders for flush turns.
ghost use Rattle.std.specs.Prelude.{◌≡◌, Ok, Option, IsErr, MatchResult};
ghost use Rattle.gate_workers.specs.declared.flush.Turn.{Turn};

use crate::flush::Turn;
use crossbeam_channel::{Receiver, RecvError, Sender, bounded};
use std::alloc::Global;
use std::sync::Wait;

/// Why no turn was made.
#[derive(Clone, Copy, Debug, PartialEq, Eq)]
pub enum OrderFault {
    /// No flusher takes the order.
    Gone,
    NoMemory,
}

/// How many orders, and how many connections, wait in their channel at most.
pub const CHANNEL_PLACES: usize = 64;

/// An order for one flush turn, with the sender for its result.
#[derive(Drop)]
pub struct Order {
    pub reply: Sender<Turn>,
}

/// What has one flush turn made. It is a trait, so that a loop over any orders ends each by its
/// turn: it knows of an order by its call alone.
pub trait TurnOrder {
    /// It was ended by this turn.
    ghost ends: { Self → Turn → Type 0 };

    /// Ends it by its turn. Where nobody waits for that, the turn stands all the same.
    fn end<R: Wait>(self, rt: &R, turn: Turn)
        ensures { ends self turn };
}

/// Where a flusher gets its orders.
pub trait Orders: Drop {
    /// An order that it gives.
    type Order: TurnOrder + Drop;

    /// What a call with its outcome makes of it.
    ghost gives: { Self → Option Self.Order → Self → Type 0 };

    /// The next order, or none where there are no more. May wait for it.
    fn next<R: Wait>(&mut self, rt: &R) -> Option<Self::Order>
        ensures { gives self.old result self.new };
}

impl TurnOrder for Order {
    /// What a channel delivers no contract says.
    ghost ends = { λ order turn. Unit {0} };

    fn end<R: Wait>(self, rt: &R, turn: Turn) {
        let _ = self.reply.send(rt, turn);
    }
}

impl Orders for Receiver<Order> {
    type Order = Order;

    /// As of an order.
    ghost gives = { λ before order after. Unit {0} };

    fn next<R: Wait>(&mut self, rt: &R) -> Option<Order> {
        self.recv(rt).ok()
    }
}

/// The answer to an order. Where no turn came back, the flusher is gone.
fn turn_or_gone(answer: Result<Turn, RecvError>) -> Result<Turn, OrderFault>
    ensures { MatchResult result (λ turn. answer ≡ Ok turn)
        (λ fault. (fault ≡ OrderFault.Gone) × IsErr answer) }
{
    match answer {
        Ok(turn) => Ok(turn),
        Err(_) => Err(OrderFault::Gone),
    }
}

/// Orders one turn from the flushers, and waits for it. Errors: `Gone` where no flusher takes the
/// order or sends a turn back; `NoMemory` where the channel of the reply can't be made, and then
/// nothing was ordered.
pub(crate) fn place_order<R: Wait>(
    rt: &R,
    alloc: Global,
    orders: &Sender<Order>,
) -> Result<Turn, OrderFault> {
    let Ok((reply, answer)) = bounded(alloc, 1) else {
        return Err(OrderFault::NoMemory);
    };
    if orders.send(rt, Order { reply }).is_err() {
        return Err(OrderFault::Gone);
    }
    turn_or_gone(answer.recv(rt))
}
