//! A client's connection: one request on it is served, each of its steps in a time of its own.
ghost use Rattle.std.specs.Prelude.{◌≡◌, ◌==◌, ℕ, List, Option, false, true};
ghost use Rattle.byte_ends.specs.Drained.{IsDrained};
ghost use Rattle.byte_ends.specs.Parts.{writer_of};
ghost use Rattle.gate_workers.specs.Refusals.{refusal_status};
ghost use Rattle.gate_workers.specs.Paced.{IsPaced};
ghost use Rattle.gate_workers.specs.Served.{IsServed};
ghost use Rattle.gateway_serve.specs.ServedClient.{IsClientServed};
ghost use Rattle.gateway_serve.specs.TimeLimit.{IsUnbegun};
ghost use Rattle.gateway_serve.specs.declared.reading.Reading.TheVariants.{Open};
ghost use Rattle.gateway_serve.specs.inner.CutOff.{is_cut_off, IsLingering, IsNoted};
ghost use Rattle.http_edge.specs.Delivery.{IsStillOpen, StopsReading};

use crate::piece_source::PieceSource;
use crate::reading::{Noting, Reading};
use crate::socket::{ShutdownWrite, Timeouts};
use crate::time_limit::{ANSWER_SECONDS, MonotonicClock, REFUSED_SECONDS, REQUEST_SECONDS};
use crate::timed::Timed;
use crate::uninterrupted::Uninterrupted;
use byte_ends::{Sink, Source, ToWriter, drain};
use gate_workers::{Connection, Keeper, Pace, Refusal, Served, serve_with};
use http_edge::MAX_PIECE;
use otlp_read::IdentityCache;
use std::alloc::Global;
use std::io::{Read, Write};
use std::net::TcpStream;
use std::time::Clock;

/// The most bytes that are thrown away of a request that was refused: a client that sends all
/// before it reads gets its answer behind a body of so many.
pub const MOST_REFUSED: usize = 64 * 1024 * 1024;

/// Whether this is the status of the refusal.
fn is_status_of(refusal: Refusal, status: u16) -> bool
    ensures { result ≡ (status == refusal_status refusal) }
{
    status == refusal.status().as_u16()
}

/// Whether the request may have been refused before all of it was read.
fn may_be_cut_off(served: Served, reading: Reading) -> bool
    ensures { result ≡ is_cut_off served reading }
{
    let Served::Replied { status, .. } = served else {
        return false;
    };
    match reading {
        Reading::Whole => false,
        Reading::Open => {
            is_status_of(Refusal::Malformed, status)
                || is_status_of(Refusal::BodyTooLong, status)
                || is_status_of(Refusal::NoMemory, status)
        }
    }
}

/// An end that is read, in so many seconds.
type ReadEnd<I, M> = PieceSource<Uninterrupted<Timed<I, M>>>;

/// An end that is written, in so many seconds.
type WriteEnd<O, M> = ToWriter<Uninterrupted<Timed<O, M>>>;

/// Where a request is read from: it has `REQUEST_SECONDS` to come.
fn request_end<I: Read + Timeouts, M: MonotonicClock>(input: I, clock: M) -> ReadEnd<I, M>
    ensures bytes { ⟦<ReadEnd<I, M> as Source>⟧.remaining result ≡ I.remaining input }
    ensures seconds { IsUnbegun result.reader.stream.limit REQUEST_SECONDS }
{
    let timed = Timed::new(input, clock, REQUEST_SECONDS);
    PieceSource::new(Uninterrupted::new(timed))
}

/// Where an answer is written to: it has `ANSWER_SECONDS` to go.
fn answer_end<O: Write + Timeouts, M: MonotonicClock>(output: O, clock: M) -> WriteEnd<O, M>
    ensures bytes { ⟦<WriteEnd<O, M> as Sink>⟧.contents result ≡ O.contents output }
    ensures seconds { IsUnbegun (writer_of result).stream.limit ANSWER_SECONDS }
{
    let timed = Timed::new(output, clock, ANSWER_SECONDS);
    ToWriter::new(Uninterrupted::new(timed))
}

/// Where what follows a refused request is read from: it has `REFUSED_SECONDS` to come.
fn rest_end<I: Read + Timeouts, M: MonotonicClock>(input: I, clock: M) -> ReadEnd<I, M>
    ensures bytes { ⟦<ReadEnd<I, M> as Source>⟧.remaining result ≡ I.remaining input }
    ensures seconds { IsUnbegun result.reader.stream.limit REFUSED_SECONDS }
    ensures whole { result.failures ≡ 0 }
{
    let timed = Timed::new(input, clock, REFUSED_SECONDS);
    PieceSource::new(Uninterrupted::new(timed))
}

/// Reads what still comes of a refused request, and throws it away.
fn throw_away<I: Read + Timeouts, M: MonotonicClock>(rest: ReadEnd<I, M>) -> ReadEnd<I, M>
    requires seconds { IsUnbegun rest.reader.stream.limit REFUSED_SECONDS }
    requires whole { rest.failures ≡ 0 }
    ensures { IsDrained (I.remaining rest.reader.stream.stream)
        (I.remaining result.reader.stream.stream) MOST_REFUSED (result.failures ≡ 0) }
{
    let mut rest = rest;
    let _ = drain(&mut rest, MOST_REFUSED);
    rest
}

/// Says that nothing more is written, and reads what still comes, so that the sender can read its
/// answer: what is closed with unread bytes is reset. Where that fails the connection is closed all
/// the same.
fn lingering_close<I: Read + Timeouts, O: ShutdownWrite, M: MonotonicClock>(
    clock: M,
    input: I,
    output: &O,
) -> ReadEnd<I, M>
    ensures { IsLingering O.shuts_write output.now (I.remaining input)
        (I.remaining result.reader.stream.stream) (result.failures ≡ 0) }
{
    let rest = rest_end(input, clock);
    if output.shutdown_write().is_err() {
        return rest;
    }
    throw_away(rest)
}

/// A client that was served: the result, how much of its request was read, and both sides of its
/// connection as the calls have left them.
#[derive(Drop)]
pub struct ServedClient<I, O, M> {
    pub served: Served,
    pub reading: Reading,
    pub reader: ReadEnd<I, M>,
    pub output: O,
}

/// Serves one request between these ends, whose seconds have not begun. No read follows the one
/// that completes the request.
fn serve_between<
    K: Keeper,
    P: Pace,
    I: Read + Timeouts + Drop,
    O: Write + Timeouts + Drop,
    M: MonotonicClock + Drop,
>(
    alloc: Global,
    input: ReadEnd<I, M>,
    output: WriteEnd<O, M>,
    keeper: &mut K,
    pace: &mut P,
    cache: &mut IdentityCache,
) -> ServedClient<I, O, M>
    requires request { IsUnbegun input.reader.stream.limit REQUEST_SECONDS }
    requires answer { IsUnbegun (writer_of output).stream.limit ANSWER_SECONDS }
    ensures served { IsServed K.gives (I.remaining input.reader.stream.stream)
        keeper.old keeper.new (O.contents (writer_of output).stream.stream)
        (O.contents result.output) result.served }
    ensures stops { StopsReading IsStillOpen (I.remaining input.reader.stream.stream)
        (I.remaining result.reader.reader.stream.stream) MAX_PIECE }
    ensures paced { IsPaced P.reaches (I.remaining input.reader.stream.stream)
        keeper.old keeper.new pace.old pace.new result.served }
    ensures noted { IsPaced IsNoted (I.remaining input.reader.stream.stream)
        keeper.old keeper.new Open result.reading result.served }
{
    let mut reader = input;
    let mut writer = output;
    let mut noting = Noting::new(pace);
    let served = serve_with(alloc, keeper, &mut reader, &mut writer, &mut noting, cache);
    let reading = noting.reading();
    let output = writer.into_inner().into_stream().into_stream();
    ServedClient {
        served,
        reading,
        reader,
        output,
    }
}

/// Serves one client: what its bytes ask for, and the answer. The request has `REQUEST_SECONDS` to
/// come, the answer `ANSWER_SECONDS` to go, and what follows a refused request `REFUSED_SECONDS`.
/// No read follows the one that completes the request, and none a refusal of one that was read
/// whole.
fn serve_client<
    K: Keeper,
    P: Pace,
    I: Read + Timeouts + Drop,
    O: Write + Timeouts + ShutdownWrite + Drop,
    M: MonotonicClock + Copy + Drop,
>(
    alloc: Global,
    clock: M,
    input: I,
    output: O,
    keeper: &mut K,
    pace: &mut P,
    cache: &mut IdentityCache,
) -> ServedClient<I, O, M>
    ensures served { IsServed K.gives (I.remaining input) keeper.old keeper.new
        (O.contents output) (O.contents result.output) result.served }
    ensures stops { is_cut_off result.served result.reading ≡ false → StopsReading IsStillOpen
        (I.remaining input) (I.remaining result.reader.reader.stream.stream) MAX_PIECE }
    ensures lingers { is_cut_off result.served result.reading ≡ true
        → (left : Option (List ℕ)) × StopsReading IsStillOpen (I.remaining input) left MAX_PIECE
        × IsLingering O.shuts_write result.output left
        (I.remaining result.reader.reader.stream.stream) (result.reader.failures ≡ 0) }
    ensures paced { IsPaced P.reaches (I.remaining input) keeper.old keeper.new
        pace.old pace.new result.served }
    ensures noted { IsPaced IsNoted (I.remaining input) keeper.old keeper.new
        Open result.reading result.served }
{
    let reader = request_end(input, clock);
    let writer = answer_end(output, clock);
    let client = serve_between(alloc, reader, writer, keeper, pace, cache);
    if !may_be_cut_off(client.served, client.reading) {
        return client;
    }
    let input = client.reader.into_reader().into_stream().into_stream();
    let output = client.output;
    let reader = lingering_close(clock, input, &output);
    ServedClient {
        served: client.served,
        reading: client.reading,
        reader,
        output,
    }
}

/// A client's connection, with one request on it, and the clock that bounds how long it takes. The
/// bytes of a socket are not known; the keeper's calls are those of one request, and its answers
/// lead to the status and to the end of the batch.
#[derive(Drop)]
pub struct ClientConnection<'a, C> {
    clock: &'a C,
    stream: TcpStream,
}

impl<'a, C: Clock> ClientConnection<'a, C> {
    /// The client behind a connection that was accepted.
    pub fn new(clock: &'a C, stream: TcpStream) -> Self
        ensures { result.stream ≡ stream }
    {
        ClientConnection { clock, stream }
    }
}

impl<C: Clock> Connection for ClientConnection<'_, C> {
    /// The pace that it is served with is asked for the request that the keeper was asked for.
    ghost serves = { λ K P gives reaches connection before after served.
        IsClientServed gives reaches (before.0, before.1) (after.0, after.1) served };

    fn serve<K: Keeper, P: Pace>(
        self,
        alloc: Global,
        keeper: &mut K,
        pace: &mut P,
        cache: &mut IdentityCache,
    ) -> Served {
        let client = serve_client(
            alloc,
            self.clock,
            &self.stream,
            &self.stream,
            keeper,
            pace,
            cache,
        );
        client.served
    }
}
