//! Who runs in a rehearsal, and what ends before what.
ghost use Rattle.std.specs.Prelude.{◌≡◌, ◌+◌, ◌*◌};

use crate::back_end::answer_all;
use crate::fault::RehearsalFault;
use crate::sender::{ask_report, order_flushes, post_all};
use crate::stage::Stage;
use gateway_options::{MAX_FLUSH_SERIES, MAX_ROUND, RehearseOptions, ServeOptions};
use std::alloc::Global;
use std::net::{Net, SocketAddr, TcpListener, TcpStream};
use std::sync::Wait;
use std::thread;
use std::thread::Threads;
use std::time::Clock;

/// How many flushes are ordered while the senders post.
const FLUSHES_MEANWHILE: u16 = 2;

/// How many flushes are ordered after that.
const FLUSHES_AFTER: u16 = 4;

/// A port of this machine, whichever is free.
const LOOPBACK: &str = "127.0.0.1:0";

/// The most bytes of the back end's address.
const LONGEST_ADDRESS: usize = 64;

/// How many connections the gateway gets: one for each batch and each flush, and one for the
/// report.
fn connections_of(options: &RehearseOptions) -> u64
    ensures { result ≡ options.now.senders * options.now.batches + 7 }
{
    let posts = u64::from(options.senders) * u64::from(options.batches);
    posts + u64::from(FLUSHES_MEANWHILE) + u64::from(FLUSHES_AFTER) + 1
}

/// Has each sender post from a thread of its own and another thread order flushes meanwhile, until
/// all have ended. Work for which no thread can be started is done here: the gateway waits for it.
fn send_all<
    F: Drop,
    R: Net<Listener = TcpListener, Stream = TcpStream> + Threads + Wait + Clock + Sync,
>(rt: &R, alloc: Global, stage: &Stage) -> Result<(), RehearsalFault<F>> {
    thread::scope(thread::scope_env(), rt, |scope| {
        let mut outcome = Ok(());
        if scope
            .spawn(move || order_flushes(rt, stage, FLUSHES_MEANWHILE))
            .is_err()
        {
            order_flushes(rt, stage, FLUSHES_MEANWHILE);
            outcome = Err(RehearsalFault::CannotStart);
        }
        for sender in 0..stage.options.senders {
            if scope
                .spawn(move || post_all(rt, alloc, stage, sender))
                .is_err()
            {
                post_all(rt, alloc, stage, sender);
                outcome = Err(RehearsalFault::CannotStart);
            }
        }
        outcome
    })
}

/// Serves, and then closes the listener, so that whoever still waits there is turned away.
fn serve<F, S: FnOnce(&TcpListener, &ServeOptions<'_>) -> Result<Vec<u8>, F>>(
    serve_bound: S,
    listener: TcpListener,
    stage: &Stage,
    options: ServeOptions<'_>,
) -> Result<Vec<u8>, F>
    requires { S.IsAlwaysCallable serve_bound }
{
    let printed = serve_bound(&listener, &options);
    drop(listener);
    stage.end();
    printed
}

/// Runs back end and gateway beside all that is sent.
fn play<
    F: Drop + Send,
    S: FnOnce(&TcpListener, &ServeOptions<'_>) -> Result<Vec<u8>, F> + Drop + Send,
    R: Net<Listener = TcpListener, Stream = TcpStream> + Threads + Wait + Clock + Sync,
>(
    rt: &R,
    alloc: Global,
    serve_bound: S,
    listener: TcpListener,
    stage: &Stage,
    served: ServeOptions<'_>,
) -> Result<Vec<u8>, RehearsalFault<F>>
    requires { S.IsAlwaysCallable serve_bound }
{
    thread::scope(
        thread::scope_env(),
        rt,
        |scope|
            requires { S.IsAlwaysCallable serve_bound }
        {
            if scope.spawn(move || answer_all(rt, alloc, stage)).is_err() {
                return Err(RehearsalFault::CannotStart);
            }
            let Ok(gateway) = scope.spawn(
                move ||
                    requires { S.IsAlwaysCallable serve_bound }
                { serve(serve_bound, listener, stage, served) },
            ) else {
                stage.end();
                return Err(RehearsalFault::CannotStart);
            };
            let sent = send_all(rt, alloc, stage);
            order_flushes(rt, stage, FLUSHES_AFTER);
            ask_report(rt, stage);
            let printed = gateway.join(rt).map_err(RehearsalFault::Serving)?;
            sent?;
            if stage.is_starved() {
                return Err(RehearsalFault::NoMemory);
            }
            Ok(printed)
        },
    )
}

/// A listener of this machine at a free port, and its address.
fn listen<F: Drop, R: Net<Listener = TcpListener, Stream = TcpStream>>(
    rt: &R,
) -> Result<(TcpListener, SocketAddr), RehearsalFault<F>> {
    let Ok(listener) = TcpListener::bind(rt, LOOPBACK) else {
        return Err(RehearsalFault::CannotListen);
    };
    match listener.local_addr() {
        Ok(address) => Ok((listener, address)),
        Err(_) => Err(RehearsalFault::CannotListen),
    }
}

/// Plays senders, gateway and back end over loopback, and returns what the gateway prints at its
/// end. The gateway is `serve_bound`: it serves the connections of a listener by the options that
/// it is handed.
///
/// Each sender posts its batches one after the other while two flushes are ordered; then four more
/// are, and the report is asked for. The back end refuses the first request that it gets and takes
/// the others. The first fault that is met is returned: `Serving` with the gateway's own,
/// `CannotListen` where there is no listener, `CannotStart` where there is no thread, and
/// `NoMemory` where the allocation of a request fails.
pub fn rehearse<
    F: Drop + Send,
    S: FnOnce(&TcpListener, &ServeOptions<'_>) -> Result<Vec<u8>, F> + Drop + Send,
    R: Net<Listener = TcpListener, Stream = TcpStream> + Threads + Wait + Clock + Sync,
>(
    rt: &R,
    alloc: Global,
    options: &RehearseOptions,
    serve_bound: S,
) -> Result<Vec<u8>, RehearsalFault<F>>
    requires { S.IsAlwaysCallable serve_bound }
{
    let (listener, gateway_at) = listen(rt)?;
    let (back_end, back_end_at) = listen(rt)?;
    if back_end.set_nonblocking(true).is_err() {
        return Err(RehearsalFault::CannotListen);
    }
    let port = back_end_at.port();
    let Ok(backend) = format!(in alloc; "127.0.0.1:{port}") else {
        return Err(RehearsalFault::NoMemory);
    };
    let backend = backend.as_str();
    if backend.len() > LONGEST_ADDRESS {
        return Err(RehearsalFault::CannotListen);
    }
    let served = ServeOptions {
        backend,
        listen: LOOPBACK,
        connections: connections_of(options),
        receivers: 2,
        flushers: 2,
        flush_series: MAX_FLUSH_SERIES as usize,
        round: u64::from(MAX_ROUND),
    };
    let stage = Stage::new(gateway_at, back_end, *options);
    play(rt, alloc, serve_bound, listener, &stage, served)
}
