//! The loops of workers, and what they work on. Each works until it gets no more.
ghost use Rattle.gate_workers.specs.Worked.{Serving, Slots, IsServedOnce, AreConnectionsServed};
ghost use Rattle.gate_workers.specs.Worked.{AreMade};
ghost use Rattle.std.specs.Prelude.{◌≤◌, ◌≡◌, List, [], Option, Some, None, ⊤};
ghost use Rattle.gate_workers.specs.declared.service.Served.{Served};
ghost use Rattle.gate_workers.specs.declared.flush.Turn.{Turn};
ghost use Rattle.gate_workers.specs.declared.worker.Spot.{Spot};

use crate::flush::{Uplink, flush_turn};
use crate::order::{Orders, TurnOrder};
use crate::service::Served;
use crate::store::{Keeper, Store};
use crossbeam_channel::Receiver;
use metric_events::limits::MAX_TAKEN;
use otlp_read::IdentityCache;
use std::alloc::Global;
use std::sync::Wait;

/// Where a worker may be held.
#[derive(Clone, Copy, Debug, PartialEq, Eq)]
pub enum Spot {
    /// A request was read, and the store was not yet asked.
    BodyRead,
    /// A flush was taken, and its request was not yet sent.
    BeforeSend,
}

/// What a worker asks at a spot. Tests hold it there; the gateway notes that a request was read.
pub trait Pace {
    /// What shows that the worker was at a spot: a flush is sent with it. Of any pace nobody else
    /// can make one, so the pace is asked first.
    type Pass: Drop;

    /// How a worker that reaches a spot changes the pace.
    ghost reaches: { Self → Spot → Self → Type 0 };

    /// Holds the worker for a while, or not at all.
    fn at(&mut self, spot: Spot) -> Self::Pass
        ensures { reaches self.old spot self.new };
}

/// A pace that does nothing.
#[derive(Drop)]
pub struct NoPace;

impl Pace for NoPace {
    type Pass = ();

    ghost reaches = { λ before spot after. after ≡ before };

    fn at(&mut self, _spot: Spot) {}
}

/// A connection with one request on it. It is a trait, since what a connection is belongs to the
/// program.
pub trait Connection {
    /// How it may be served: with which keeper, pace and cache, how these are left, and the result;
    /// in any way, where the type does not tell. A loop over any connections knows that of a
    /// connection by its call alone: so it can't leave the call out, or make it with others.
    ghost serves: { Serving Self } = { λ K P gives reaches connection before after served. ⊤ };

    /// Serves its request, as `serve_with` does, and ends it.
    fn serve<K: Keeper, P: Pace>(
        self,
        alloc: Global,
        keeper: &mut K,
        pace: &mut P,
        cache: &mut IdentityCache,
    ) -> Served
        ensures served { IsServedOnce K.gives keeper.old keeper.new result }
        ensures serves { serves K P K.gives P.reaches self (keeper.old, pace.old, cache.old)
            (keeper.new, pace.new, cache.new) result };
}

/// Where a worker gets its connections.
pub trait Connections: Drop {
    /// A connection that it gives.
    type Connection: Connection + Drop;

    /// What a call with its outcome makes of it.
    ghost gives: { Self → Option Self.Connection → Self → Type 0 };

    /// The next connection, or none where there are no more. May wait for it.
    fn next<R: Wait>(&mut self, rt: &R) -> Option<Self::Connection>
        ensures { gives self.old result self.new };
}

impl<C: Connection + Drop> Connections for Receiver<C> {
    type Connection = C;

    /// What a channel delivers no contract says.
    ghost gives = { λ before connection after. Unit {0} };

    fn next<R: Wait>(&mut self, rt: &R) -> Option<C> {
        self.recv(rt).ok()
    }
}

/// Serves one connection after another, each once, until there are no more. May wait for the next
/// one. The keeper and the pace are asked for their requests, and for nothing else. The cache is
/// empty first, and what one body leaves in it serves those after it.
pub fn receiver_loop<S: Connections, K: Keeper, P: Pace, R: Wait>(
    rt: &R,
    alloc: Global,
    mut connections: S,
    keeper: &mut K,
    pace: &mut P,
)
    ensures { (all : List Served) × (last : S) × (end : S) × (slots : Slots)
        × AreConnectionsServed S.gives S.Connection.serves K.gives P.reaches all connections last
        (keeper.old, pace.old, Some []) (keeper.new, pace.new, slots)
        × S.gives last None end }
{
    let mut cache = IdentityCache::new(alloc);
    for _ in rt.forever() {
        let Some(connection) = connections.next(rt) else {
            return;
        };
        let _ = connection.serve(alloc, keeper, pace, &mut cache);
    }
    unreachable!()
}

/// Makes one flush turn for each order, and ends the order by it, until there are no more. May wait
/// for the next order. The store is asked for these turns and nothing else, and nothing else is
/// sent. The pace is asked as `flush_turn` asks it.
pub fn flusher_loop<T: Drop, S: Orders, K: Store, U: Uplink<Pass = T>, P: Pace<Pass = T>, R: Wait>(
    rt: &R,
    alloc: Global,
    mut orders: S,
    keeper: &mut K,
    uplink: &mut U,
    pace: &mut P,
    max: usize,
)
    requires low { 1 ≤ max }
    requires high { max ≤ MAX_TAKEN }
    ensures { (all : List Turn) × (last : S) × (end : S)
        × AreMade S.gives S.Order.ends K.gives U.sends P.reaches max all orders last keeper.old
        keeper.new uplink.old uplink.new pace.old pace.new
        × S.gives last None end }
{
    for _ in rt.forever() {
        let Some(order) = orders.next(rt) else {
            return;
        };
        let turn = flush_turn(alloc, keeper, uplink, pace, max);
        order.end(rt, turn);
    }
    unreachable!()
}
