//! Serves a request: reads it, handles it, writes the response and closes its batch.
ghost use Rattle.std.specs.Prelude.{◌≡◌};
ghost use Rattle.http_edge.specs.Delivery.{StopsReading, IsStillOpen};
ghost use Rattle.gate_workers.specs.inner.Heard.{Hears, HearingFails, HearingAsks, heard_of};
ghost use Rattle.gate_workers.specs.Conversations.{IsConfirmed, IsClosed, IsEnded};
ghost use Rattle.gate_workers.specs.Served.{IsServed, ReadingFails, WritingFails};
ghost use Rattle.gate_workers.specs.ServedBook.{IsServedBook};
ghost use Rattle.gate_workers.specs.Paced.{IsPaced};

use crate::book_keeper::BookKeeper;
use crate::flush::Uplink;
use crate::handle::{Handled, handle};
use crate::refusal::Refusal;
use crate::request::{Ask, ask_of};
use crate::store::{Keeper, Store};
use crate::worker::{Pace, Spot};
use byte_ends::{Sink, Source};
use delta_book::faults::UndoFault;
use http_edge::{HttpFault, Written, read_message};
use otlp_read::IdentityCache;
use std::alloc::Global;

/// How the batch of a request was closed.
#[derive(Clone, Copy, Debug, PartialEq, Eq)]
pub enum End {
    /// There was none.
    NoBatch,
    Confirmed,
    Undone,
}

/// The result of serving a request.
#[derive(Clone, Copy, Debug, PartialEq, Eq)]
pub enum Served {
    /// The reader ended before a byte; nothing was written.
    Closed,
    /// A call of the reader failed; nothing was written.
    Broken,
    Replied {
        status: u16,
        written: Written,
        end: End,
    },
}

/// What was read of a reader.
#[derive(Drop)]
pub enum Heard {
    /// It ended before a byte.
    Closed,
    /// It failed.
    Broken,
    Asks(Ask),
}

/// What is read where there is no message. A reader that ended or failed gets no response.
fn heard_of(fault: HttpFault) -> Heard
    ensures { result ≡ heard_of fault }
{
    match fault {
        HttpFault::Closed => Heard::Closed,
        HttpFault::Io => Heard::Broken,
        HttpFault::BodyTooLong => Heard::Asks(Ask::Refused(Refusal::BodyTooLong)),
        HttpFault::NoMemory => Heard::Asks(Ask::Refused(Refusal::NoMemory)),
        HttpFault::BadHead
        | HttpFault::TooManyHeaders
        | HttpFault::HeadTooLong
        | HttpFault::BadLength
        | HttpFault::BadChunk
        | HttpFault::Truncated => Heard::Asks(Ask::Refused(Refusal::Malformed)),
    }
}

/// Reads a message, and finds what it asks for. No read follows the one that completes the message
/// or shows a fault.
fn listen<S: Source, P: Pace>(
    alloc: Global,
    reader: &mut S,
    pace: &mut P,
    cache: &mut IdentityCache,
) -> Heard
    ensures heard { Hears (S.remaining reader.old) result }
    ensures failed { HearingFails S.one_more (S.failures reader.old) (S.failures reader.new)
        result }
    ensures stops { StopsReading IsStillOpen (S.remaining reader.old)
        (S.remaining reader.new) (S.given reader.new) }
    ensures paced { HearingAsks P.reaches (S.remaining reader.old) pace.old pace.new result }
{
    match read_message(alloc, reader) {
        Err(fault) => return heard_of(fault),
        Ok(request) => {
            pace.at(Spot::BodyRead);
            match ask_of(alloc, &request, cache) {
                Ok(ask) => return Heard::Asks(ask),
                Err(_) => return Heard::Asks(Ask::Refused(Refusal::NoMemory)),
            }
        }
    }
}

/// Confirms a batch. Where it is not open, nothing changes.
fn confirm<K: Store>(keeper: &mut K, batch: u64) -> End
    ensures { IsConfirmed K.gives batch keeper.old keeper.new result }
{
    let _ = keeper.confirm(batch);
    End::Confirmed
}

/// Undoes a batch. Where a point of it was taken meanwhile, it is confirmed.
fn undo<K: Store>(keeper: &mut K, batch: u64) -> End
    ensures { IsClosed K.gives batch Written.None_ keeper.old keeper.new result }
{
    match keeper.undo(batch) {
        Ok(()) => End::Undone,
        Err(UndoFault::NotOpen) => End::Undone,
        Err(UndoFault::Taken) => confirm(keeper, batch),
    }
}

/// Undoes a batch where nothing of its response was written, and else confirms it.
fn close_batch<K: Store>(keeper: &mut K, batch: u64, written: Written) -> End
    ensures { IsClosed K.gives batch written keeper.old keeper.new result }
{
    match written {
        Written::None_ => undo(keeper, batch),
        Written::All | Written::Part(_) => confirm(keeper, batch),
    }
}

/// Closes the batch of a request, where it has one.
fn close<K: Store>(keeper: &mut K, batch: Option<u64>, written: Written) -> End
    ensures { IsEnded K.gives batch written keeper.old keeper.new result }
{
    match batch {
        None => End::NoBatch,
        Some(batch) => close_batch(keeper, batch, written),
    }
}

/// Serves the request that the reader's bytes begin with. No read follows the one that completes
/// it or shows a fault, so a client that keeps its side open is not waited for. The body is read
/// without a cache.
pub fn serve<K: Keeper, S: Source, W: Sink, P: Pace>(
    alloc: Global,
    keeper: &mut K,
    reader: &mut S,
    writer: &mut W,
    pace: &mut P,
) -> Served
    ensures served { IsServed K.gives (S.remaining reader.old) keeper.old keeper.new
        (W.contents writer.old) (W.contents writer.new) result }
    ensures stops { StopsReading IsStillOpen (S.remaining reader.old)
        (S.remaining reader.new) (S.given reader.new) }
    ensures read { ReadingFails S.one_more (S.failures reader.old) (S.failures reader.new) result }
    ensures written { WritingFails W.one_more (W.failures writer.old) (W.failures writer.new)
        result }
    ensures paced { IsPaced P.reaches (S.remaining reader.old) keeper.old keeper.new
        pace.old pace.new result }
{
    let mut cache = IdentityCache::without_slots();
    serve_with(alloc, keeper, reader, writer, pace, &mut cache)
}

/// Serves a request as `serve` does. The body is read with a cache of the bodies before; no cache
/// changes the result.
pub fn serve_with<K: Keeper, S: Source, W: Sink, P: Pace>(
    alloc: Global,
    keeper: &mut K,
    reader: &mut S,
    writer: &mut W,
    pace: &mut P,
    cache: &mut IdentityCache,
) -> Served
    ensures served { IsServed K.gives (S.remaining reader.old) keeper.old keeper.new
        (W.contents writer.old) (W.contents writer.new) result }
    ensures stops { StopsReading IsStillOpen (S.remaining reader.old)
        (S.remaining reader.new) (S.given reader.new) }
    ensures read { ReadingFails S.one_more (S.failures reader.old) (S.failures reader.new) result }
    ensures written { WritingFails W.one_more (W.failures writer.old) (W.failures writer.new)
        result }
    ensures paced { IsPaced P.reaches (S.remaining reader.old) keeper.old keeper.new
        pace.old pace.new result }
{
    match listen(alloc, reader, pace, cache) {
        Heard::Closed => Served::Closed,
        Heard::Broken => Served::Broken,
        Heard::Asks(ask) => {
            let Handled { response, batch } = handle(alloc, keeper, ask);
            let written = response.write(writer);
            let end = close(keeper, batch, written);
            Served::Replied {
                status: response.status(),
                written,
                end,
            }
        }
    }
}

/// Serves one request over a book. No read follows the one that completes it or shows a fault.
pub fn serve_book<U: Uplink<Pass = ()> + Drop, S: Source, W: Sink, P: Pace>(
    alloc: Global,
    keeper: &mut BookKeeper<U>,
    reader: &mut S,
    writer: &mut W,
    pace: &mut P,
) -> Served
    ensures seat { keeper.new.seated.seat ≡ keeper.old.seated.seat }
    ensures max { keeper.new.max ≡ keeper.old.max }
    ensures served { IsServedBook U.sends keeper.old.seated.seat keeper.old.max
        (S.remaining reader.old) keeper.old.seated.book keeper.new.seated.book
        keeper.old.uplink keeper.new.uplink
        (W.contents writer.old) (W.contents writer.new) result }
    ensures stops { StopsReading IsStillOpen (S.remaining reader.old)
        (S.remaining reader.new) (S.given reader.new) }
    ensures read { ReadingFails S.one_more (S.failures reader.old) (S.failures reader.new) result }
    ensures written { WritingFails W.one_more (W.failures writer.old) (W.failures writer.new)
        result }
    ensures paced { IsPaced P.reaches (S.remaining reader.old) keeper.old keeper.new
        pace.old pace.new result }
{
    serve(alloc, keeper, reader, writer, pace)
}
