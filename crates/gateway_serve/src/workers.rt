//! The workers of a round, each in a thread of its own.
ghost use Rattle.std.specs.Prelude.{◌≡◌, ◌+◌, IfErr, IfOk, nat_lt};
ghost use Rattle.gateway_serve.specs.inner.Tasks.{is_flush};
ghost use Rattle.gateway_serve.specs.declared.fault.GatewayFault.TheVariants.{NoMemory};

use crate::accept::Listener;
use crate::acceptor::{RoundCount, Running};
use crate::fault::GatewayFault;
use crate::shared_listener::SharedListener;
use crate::worker::{Work, run_worker};
use crossbeam_channel::{Receiver, Sender, bounded};
use gate_workers::{CHANNEL_PLACES, Order};
use gateway_options::ServeOptions;
use shared_book::round::Round;
use shared_book::seat::Seat;
use shared_book::shared::SharedBook;
use std::alloc::Global;
use std::net::{Net, TcpListener, TcpStream};
use std::sync::Wait;
use std::sync::ledger::Ledger;
use std::thread;
use std::thread::{Builder, Threads};
use std::time::Clock;

/// The stack of a worker, in bytes. Small, so that the stacks of a round's workers find room where
/// posts have used up the memory.
const STACK: usize = 1 << 20;

/// Both sides of the channel of orders of a round.
#[derive(Drop)]
struct OrderChannel {
    order: Sender<Order>,
    orders: Receiver<Order>,
}

/// A channel without an order.
fn order_channel(alloc: Global) -> Result<OrderChannel, GatewayFault>
    ensures { IfErr result (λ fault. fault ≡ NoMemory) }
{
    let (order, orders) = bounded(alloc, CHANNEL_PLACES)?;
    Ok(OrderChannel { order, orders })
}

/// The work of the seat of this number: the first seats are the flushers', so that these are there
/// before the first receiver.
fn work_of(channel: &OrderChannel, flushers: u16, number: u16) -> Result<Work, GatewayFault>
    ensures task { IfOk result (λ work. is_flush work ≡ nat_lt number flushers) }
    ensures fault { IfErr result (λ fault. fault ≡ NoMemory) }
{
    if number < flushers {
        let orders = channel.orders.clone()?;
        Ok(Work::Flush { orders })
    } else {
        let order = channel.order.clone()?;
        Ok(Work::Receive { order })
    }
}

/// Waits for all workers, and gives their seats.
fn join_all<L: Ledger, R: Threads>(
    rt: &R,
    alloc: Global,
    running: Vec<Running<Seat<L>>>,
) -> Result<Vec<Seat<L>>, GatewayFault>
    ensures { IfErr result (λ fault. fault ≡ NoMemory) }
{
    let mut seats = Vec::new(alloc);
    let mut is_short = false;
    for worker in running {
        is_short |= seats.push(worker.join(rt)).is_err();
    }
    if is_short {
        return Err(GatewayFault::NoMemory);
    }
    Ok(seats)
}

/// Starts a worker on each seat, and waits until all end. No receiver accepts before all have
/// started, and none where one could not be. On every path the sides of the channel are dropped
/// before a worker is waited for, so each of them ends.
fn run_workers<
    L: Round + Send + Sync,
    R: Net<Listener = TcpListener, Stream = TcpStream> + Threads + Wait + Clock + Sync,
>(
    rt: &R,
    alloc: Global,
    shared: &SharedBook<L>,
    seats: Vec<Seat<L>>,
    listener: &SharedListener<Listener, L>,
    channel: OrderChannel,
    options: &ServeOptions<'_>,
) -> Result<Vec<Seat<L>>, GatewayFault> {
    thread::scope(thread::scope_env(), rt, |scope| {
        let mut running = Vec::new(alloc);
        let mut acceptor = listener.hold(rt);
        for seat in seats {
            let task = match work_of(&channel, options.flushers, seat.number()) {
                Ok(task) => task,
                Err(fault) => {
                    acceptor.close(fault);
                    break;
                }
            };
            let started = Builder::new()
                .stack_size(STACK)
                .spawn_scoped(scope, move || {
                    run_worker(rt, alloc, shared, seat, options, listener, task)
                });
            let Ok(worker) = started else {
                acceptor.close(GatewayFault::CannotStart);
                break;
            };
            if running.push(acceptor.start(worker)).is_err() {
                acceptor.close(GatewayFault::NoMemory);
                break;
            }
        }
        drop(acceptor);
        drop(channel);
        join_all(rt, alloc, running)
    })
}

/// Starts a worker on each seat, and waits until they end: the receivers once so many connections
/// were accepted and served, or after a fault, and then the flushers. None is accepted before all
/// have started. If it returns Ok, so many connections were accepted.
pub fn serve_beside<
    L: Round + Send + Sync,
    R: Net<Listener = TcpListener, Stream = TcpStream> + Threads + Wait + Clock + Sync,
>(
    rt: &R,
    alloc: Global,
    shared: &SharedBook<L>,
    seats: Vec<Seat<L>>,
    listener: Listener,
    options: &ServeOptions<'_>,
    connections: u64,
) -> Result<(Vec<Seat<L>>, RoundCount), GatewayFault>
    requires { L.parts ≡ options.now.receivers + options.now.flushers }
    ensures accepted { IfOk result (λ r. r.1.accepted ≡ connections) }
{
    let channel = order_channel(alloc)?;
    let workers = u64::from(options.receivers) + u64::from(options.flushers);
    let listener = SharedListener::<Listener, L>::new(listener, workers, connections);
    let seats = run_workers(rt, alloc, shared, seats, &listener, channel, options);
    listener.end(connections, seats)
}
