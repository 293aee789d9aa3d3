//! Workers over one shared book: that they overlap, and how an order ends.
ghost use Rattle.std.specs.Prelude.{◌≡◌};
ghost use Rattle.metric_events.specs.Opening.{first_opening};

use crate::fixed::Fixed;
use crate::pair::{finish_both, two_seats};
use crate::pause::{After, Flags, PauseAt, Scripted, is_set_in_time};
use crate::posts::{ACCEPTED, OTHER, POSTED};
use back_answers::{Act, Answer};
use crossbeam_channel::{Receiver, Sender, bounded};
use ensure::{ensure, ensure_eq};
use gate_workers::{
    CHANNEL_PLACES, NoPace, Order, Pace, SharedKeeper, Spot, Turn, flusher_loop, receiver_loop,
};
use shared_book::round::Round;
use shared_book::seat::Seat;
use shared_book::shared::SharedBook;
use std::alloc::Global;
use std::marker::Brand;
use std::process::Abort;
use std::sync::Wait;
use std::sync::atomic::{AtomicBool, Ordering};
use std::sync::ledger::Blank;
use std::test::Fail;
use std::thread::{Threads, join};
use std::time::Clock;

/// An order to flush.
const FLUSH: &[u8] = b"POST /flush HTTP/1.1\r\n\r\n";

/// The response if no flusher takes the order.
const NO_FLUSHER: &[u8] = b"HTTP/1.1 503 Service Unavailable\r\n\
        Content-Type: application/json\r\n\
        Content-Length: 24\r\n\
        Connection: close\r\n\r\n\
        {\"message\":\"no flusher\"}";

/// The response if the back end accepted the one point of flush 1.
const SETTLED: &[u8] = b"HTTP/1.1 200 OK\r\n\
        Content-Type: application/json\r\n\
        Content-Length: 42\r\n\
        Connection: close\r\n\r\n\
        {\"act\":\"settled\",\"flush\":\"1\",\"points\":\"1\"}";

/// Ends the round, and compares the audit: events, admitted points, acknowledged points.
fn expect_audit<L: Round>(
    alloc: Global,
    shared: SharedBook<L>,
    seats: (Seat<L>, Seat<L>),
    wanted: (u128, u128, u128),
) -> Result<(), Fail> {
    let (_, audit) = finish_both(alloc, shared, seats)?;
    ensure_eq!((audit.events, audit.admitted, audit.acknowledged), wanted);
    Ok(())
}

/// Serves the connections from a seat.
fn receive<L: Round, R: Wait, P: Pace>(
    rt: &R,
    alloc: Global,
    shared: &SharedBook<L>,
    seat: Seat<L>,
    orders: Option<Sender<Order>>,
    connections: Receiver<Scripted<'_>>,
    pace: &mut P,
) -> Seat<L> {
    let mut keeper = SharedKeeper::new(rt, alloc, shared, seat, orders);
    receiver_loop(rt, alloc, connections, &mut keeper, pace);
    keeper.into_seat()
}

/// Runs the flushes that are ordered, over an uplink that accepts all.
fn flush<L: Round, R: Wait, P: Pace<Pass = ()>>(
    rt: &R,
    alloc: Global,
    shared: &SharedBook<L>,
    seat: Seat<L>,
    orders: Receiver<Order>,
    pace: &mut P,
) -> Seat<L> {
    let mut keeper = SharedKeeper::new(rt, alloc, shared, seat, None);
    let mut uplink = Fixed {
        answer: Answer::Success,
    };
    flusher_loop(rt, alloc, orders, &mut keeper, &mut uplink, pace, 1000);
    keeper.into_seat()
}

/// Serves the connections from a seat once another worker is paused.
fn receive_after<L: Round, R: Wait + Clock>(
    rt: &R,
    alloc: Global,
    shared: &SharedBook<L>,
    seat: Seat<L>,
    connections: Receiver<Scripted<'_>>,
    flags: &Flags,
) -> Seat<L> {
    let mut pace = After::new(rt, flags);
    receive(rt, alloc, shared, seat, None, connections, &mut pace)
}

/// Serves the connections from a seat, and pauses after the first body that any worker reads.
fn receive_and_pause<L: Round, R: Wait + Clock>(
    rt: &R,
    alloc: Global,
    shared: &SharedBook<L>,
    seat: Seat<L>,
    connections: Receiver<Scripted<'_>>,
    flags: &Flags,
) -> Seat<L> {
    let mut pace = PauseAt::new(rt, Spot::BodyRead, flags);
    receive(rt, alloc, shared, seat, None, connections, &mut pace)
}

/// Runs the flushes that are ordered, and pauses before it sends the first.
fn flush_and_pause<L: Round, R: Wait + Clock>(
    rt: &R,
    alloc: Global,
    shared: &SharedBook<L>,
    seat: Seat<L>,
    orders: Receiver<Order>,
    flags: &Flags,
) -> Seat<L> {
    let mut pace = PauseAt::new(rt, Spot::BeforeSend, flags);
    flush(rt, alloc, shared, seat, orders, &mut pace)
}

/// A channel that has this one connection and is then closed.
fn one_connection<'a, R: Wait>(
    rt: &R,
    alloc: Global,
    connection: Scripted<'a>,
) -> Result<Receiver<Scripted<'a>>, Fail> {
    let (to, connections) = bounded(alloc, CHANNEL_PLACES)?;
    to.send(rt, connection).ok().ok_or("no receiver")?;
    Ok(connections)
}

/// A channel that has one order and is then closed, and the receiver of the order's turn.
fn one_order<R: Wait>(rt: &R, alloc: Global) -> Result<(Receiver<Order>, Receiver<Turn>), Fail> {
    let (to, orders) = bounded(alloc, CHANNEL_PLACES)?;
    let (reply, turn) = bounded(alloc, 1)?;
    to.send(rt, Order { reply }).ok().ok_or("no flusher")?;
    Ok((orders, turn))
}

/// Serves one connection of these bytes from a seat, expects this response, and returns the seat.
fn serve_one<L: Round, R: Wait + Abort>(
    rt: &R,
    alloc: Global,
    shared: &SharedBook<L>,
    seat: Seat<L>,
    orders: Option<Sender<Order>>,
    bytes: &[u8],
    response: &[u8],
) -> Result<Seat<L>, Fail> {
    let is_answered = AtomicBool::new(false);
    let connection = one_connection(rt, alloc, Scripted::new(bytes, response, &is_answered))?;
    let seat = receive(rt, alloc, shared, seat, orders, connection, &mut NoPace);
    ensure!(is_answered.load(Ordering::SeqCst));
    Ok(seat)
}

/// Serves a batch while flush 1 is paused before it is sent; then the flush is settled.
fn serve_and_flush<L: Round + Send + Sync, R: Threads + Wait + Clock + Abort + Sync>(
    rt: &R,
    alloc: Global,
    shared: &SharedBook<L>,
    seats: (Seat<L>, Seat<L>),
    flags: &Flags,
) -> Result<(Seat<L>, Seat<L>), Fail> {
    let (first, second) = seats;
    let (orders, turn) = one_order(rt, alloc)?;
    let later = one_connection(rt, alloc, Scripted::new(OTHER, ACCEPTED, &flags.free))?;
    let seats = join(
        rt,
        || receive_after(rt, alloc, shared, first, later, flags),
        || flush_and_pause(rt, alloc, shared, second, orders, flags),
    );
    ensure!(!flags.late.load(Ordering::SeqCst));
    ensure!(flags.free.load(Ordering::SeqCst));
    ensure_eq!(turn.recv(rt).ok(), Some(settled_turn()));
    Ok(seats)
}

/// Flush 1 is paused before it is sent, until batch 2 has been answered.
fn a_batch_while_a_flush_is_sent<L: Round + Send + Sync, R: Threads + Wait + Clock + Abort + Sync>(
    rt: &R,
    alloc: Global,
    blank: Blank,
) -> Result<(), Fail>
    requires name { blank.name ≡ L.name }
    requires ledger { blank.parts ≡ L.parts }
    requires parts { blank.parts ≡ 2 }
    requires opening { L.opening ≡ first_opening }
{
    let (shared, first, second) = two_seats::<L>(alloc, blank)?;
    let first = serve_one(rt, alloc, &shared, first, None, POSTED, ACCEPTED)?;
    let seats = serve_and_flush(rt, alloc, &shared, (first, second), &Flags::new())?;
    expect_audit(alloc, shared, seats, (6, 2, 1))
}

/// The turn of flush 1, whose one point the back end accepted.
fn settled_turn() -> Turn {
    Turn::Done {
        flush: 1,
        points: 1,
        answer: Answer::Success,
        act: Act::Settle,
    }
}

/// Sends a connection, and another one once a worker is paused.
fn feed<'a, R: Wait + Clock>(
    rt: &R,
    to: Sender<Scripted<'a>>,
    first: Scripted<'a>,
    paused: &AtomicBool,
    second: Scripted<'a>,
) -> bool {
    to.send(rt, first).is_ok() && is_set_in_time(rt, paused) && to.send(rt, second).is_ok()
}

/// Two connections. The first is paused after its body until the second has been answered.
fn serve_two<L: Round + Send + Sync, R: Threads + Wait + Clock + Abort + Sync>(
    rt: &R,
    alloc: Global,
    shared: &SharedBook<L>,
    seats: (Seat<L>, Seat<L>),
    flags: &Flags,
) -> Result<(Seat<L>, Seat<L>), Fail> {
    let (first, second) = seats;
    let answered = AtomicBool::new(false);
    let (to, connections) = bounded(alloc, CHANNEL_PLACES)?;
    let others = connections.clone()?;
    let posted = Scripted::new(POSTED, ACCEPTED, &answered);
    let other = Scripted::new(OTHER, ACCEPTED, &flags.free);
    let (first, (second, fed)) = join(
        rt,
        || receive_and_pause(rt, alloc, shared, first, connections, flags),
        || {
            join(
                rt,
                || receive_and_pause(rt, alloc, shared, second, others, flags),
                || feed(rt, to, posted, &flags.paused, other),
            )
        },
    );
    ensure!(fed && !flags.late.load(Ordering::SeqCst));
    ensure!(answered.load(Ordering::SeqCst) && flags.free.load(Ordering::SeqCst));
    Ok((first, second))
}

/// Connection 1 is paused after its body until connection 2 has been answered.
fn a_connection_while_another_is_paused<
    L: Round + Send + Sync,
    R: Threads + Wait + Clock + Abort + Sync,
>(rt: &R, alloc: Global, blank: Blank) -> Result<(), Fail>
    requires name { blank.name ≡ L.name }
    requires ledger { blank.parts ≡ L.parts }
    requires parts { blank.parts ≡ 2 }
    requires opening { L.opening ≡ first_opening }
{
    let (shared, first, second) = two_seats::<L>(alloc, blank)?;
    let seats = serve_two(rt, alloc, &shared, (first, second), &Flags::new())?;
    expect_audit(alloc, shared, seats, (4, 2, 0))
}

/// Orders flushes without a flusher and from one that has ended, and returns the seat.
fn order_from_nobody<L: Round, R: Wait + Abort>(
    rt: &R,
    alloc: Global,
    shared: &SharedBook<L>,
    seat: Seat<L>,
) -> Result<Seat<L>, Fail> {
    let seat = serve_one(rt, alloc, shared, seat, None, FLUSH, NO_FLUSHER)?;
    let (to, orders) = bounded(alloc, CHANNEL_PLACES)?;
    drop(orders);
    serve_one(rt, alloc, shared, seat, Some(to), FLUSH, NO_FLUSHER)
}

/// Orders a flush whose order is dropped without a turn, and returns the seat.
fn order_and_drop<L: Round + Send + Sync, R: Threads + Wait + Abort + Sync>(
    rt: &R,
    alloc: Global,
    shared: &SharedBook<L>,
    seat: Seat<L>,
) -> Result<Seat<L>, Fail> {
    let is_answered = AtomicBool::new(false);
    let (to, orders) = bounded::<Order, _>(alloc, CHANNEL_PLACES)?;
    let flush = one_connection(rt, alloc, Scripted::new(FLUSH, NO_FLUSHER, &is_answered))?;
    let (seat, taken) = join(
        rt,
        || receive(rt, alloc, shared, seat, Some(to), flush, &mut NoPace),
        || orders.recv(rt).is_ok(),
    );
    ensure!(taken && is_answered.load(Ordering::SeqCst));
    Ok(seat)
}

/// Orders that no flusher takes, and one that is dropped without a turn.
fn orders_of_nobody<L: Round + Send + Sync, R: Threads + Wait + Abort + Sync>(
    rt: &R,
    alloc: Global,
    blank: Blank,
) -> Result<(), Fail>
    requires name { blank.name ≡ L.name }
    requires ledger { blank.parts ≡ L.parts }
    requires parts { blank.parts ≡ 2 }
    requires opening { L.opening ≡ first_opening }
{
    let (shared, first, second) = two_seats::<L>(alloc, blank)?;
    let first = order_from_nobody(rt, alloc, &shared, first)?;
    let first = order_and_drop(rt, alloc, &shared, first)?;
    expect_audit(alloc, shared, (first, second), (0, 0, 0))
}

/// The flusher's turn answers an order of the channel. The flusher ends once the receiver has.
fn order_and_flush<L: Round + Send + Sync, R: Threads + Wait + Abort + Sync>(
    rt: &R,
    alloc: Global,
    shared: &SharedBook<L>,
    seats: (Seat<L>, Seat<L>),
) -> Result<(Seat<L>, Seat<L>), Fail> {
    let (first, second) = seats;
    let is_answered = AtomicBool::new(false);
    let order = one_connection(rt, alloc, Scripted::new(FLUSH, SETTLED, &is_answered))?;
    let (to, orders) = bounded(alloc, CHANNEL_PLACES)?;
    let seats = join(
        rt,
        || receive(rt, alloc, shared, first, Some(to), order, &mut NoPace),
        || flush(rt, alloc, shared, second, orders, &mut NoPace),
    );
    ensure!(is_answered.load(Ordering::SeqCst));
    Ok(seats)
}

/// An order sends the point of a batch, and settles it.
fn an_order_is_made<L: Round + Send + Sync, R: Threads + Wait + Abort + Sync>(
    rt: &R,
    alloc: Global,
    blank: Blank,
) -> Result<(), Fail>
    requires name { blank.name ≡ L.name }
    requires ledger { blank.parts ≡ L.parts }
    requires parts { blank.parts ≡ 2 }
    requires opening { L.opening ≡ first_opening }
{
    let (shared, first, second) = two_seats::<L>(alloc, blank)?;
    let first = serve_one(rt, alloc, &shared, first, None, POSTED, ACCEPTED)?;
    let seats = order_and_flush(rt, alloc, &shared, (first, second))?;
    expect_audit(alloc, shared, seats, (4, 1, 1))
}

#[test]
fn a_flush_that_is_sent_delays_no_batch(rt: HostRuntime) -> Result<(), Fail> {
    a_batch_while_a_flush_is_sent::<Brand, _>(&rt, rt.alloc(), Blank::new(2))
}

#[test]
fn a_connection_that_is_paused_delays_no_other(rt: HostRuntime) -> Result<(), Fail> {
    a_connection_while_another_is_paused::<Brand, _>(&rt, rt.alloc(), Blank::new(2))
}

#[test]
fn an_order_that_nobody_takes_is_gone(rt: HostRuntime) -> Result<(), Fail> {
    orders_of_nobody::<Brand, _>(&rt, rt.alloc(), Blank::new(2))
}

#[test]
fn an_order_comes_back_as_its_turn(rt: HostRuntime) -> Result<(), Fail> {
    an_order_is_made::<Brand, _>(&rt, rt.alloc(), Blank::new(2))
}
