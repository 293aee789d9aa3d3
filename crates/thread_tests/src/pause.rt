//! A worker that pauses until a flag is set, and a connection of given bytes.
use byte_ends::{Script, Tape};
use gate_workers::{Connection, Keeper, Pace, Served, Spot, serve_with};
use otlp_read::IdentityCache;
use std::alloc::Global;
use std::sync::atomic::{AtomicBool, Ordering};
use std::thread;
use std::time::{Clock, Duration};

/// How often a paused worker looks at its flag, a millisecond apart, before it continues anyway.
const MOST_LOOKS: u32 = 10_000;

/// Waits for the flag, and returns whether it was set in time.
pub fn is_set_in_time<R: Clock>(rt: &R, flag: &AtomicBool) -> bool {
    for _ in 0..MOST_LOOKS {
        if flag.load(Ordering::SeqCst) {
            return true;
        }
        thread::sleep(rt, Duration::from_millis(1));
    }
    false
}

/// The flags by which a paused worker and the others wait for each other.
#[derive(Drop)]
pub struct Flags {
    /// A worker is paused.
    pub paused: AtomicBool,
    /// It may continue.
    pub free: AtomicBool,
    /// A flag was not set in time.
    pub late: AtomicBool,
}

impl Flags {
    pub fn new() -> Flags {
        Flags {
            paused: AtomicBool::new(false),
            free: AtomicBool::new(false),
            late: AtomicBool::new(false),
        }
    }
}

/// Pauses the first worker that reaches the spot until it may continue.
#[derive(Drop)]
pub struct PauseAt<'a, R: Clock> {
    rt: &'a R,
    spot: Spot,
    flags: &'a Flags,
}

impl<'a, R: Clock> PauseAt<'a, R> {
    pub fn new(rt: &'a R, spot: Spot, flags: &'a Flags) -> Self {
        PauseAt { rt, spot, flags }
    }
}

impl<R: Clock> Pace for PauseAt<'_, R> {
    type Pass = ();

    /// What it waits for no contract says.
    ghost reaches = { λ before spot after. Unit {0} };

    fn at(&mut self, spot: Spot) {
        if spot != self.spot || self.flags.paused.swap(true, Ordering::SeqCst) {
            return;
        }
        if !is_set_in_time(self.rt, &self.flags.free) {
            self.flags.late.store(true, Ordering::SeqCst);
        }
    }
}

/// Makes a worker wait, before it calls its store, until another one is paused.
#[derive(Drop)]
pub struct After<'a, R: Clock> {
    rt: &'a R,
    flags: &'a Flags,
}

impl<'a, R: Clock> After<'a, R> {
    pub fn new(rt: &'a R, flags: &'a Flags) -> Self {
        After { rt, flags }
    }
}

impl<R: Clock> Pace for After<'_, R> {
    type Pass = ();

    /// What it waits for no contract says.
    ghost reaches = { λ before spot after. Unit {0} };

    fn at(&mut self, spot: Spot) {
        if spot == Spot::BodyRead && !is_set_in_time(self.rt, &self.flags.paused) {
            self.flags.late.store(true, Ordering::SeqCst);
        }
    }
}

/// A connection of these bytes, which sets its flag once it has been sent exactly this response.
#[derive(Drop)]
pub struct Scripted<'a> {
    bytes: &'a [u8],
    response: &'a [u8],
    answered: &'a AtomicBool,
}

impl<'a> Scripted<'a> {
    pub fn new(bytes: &'a [u8], response: &'a [u8], answered: &'a AtomicBool) -> Self {
        Scripted {
            bytes,
            response,
            answered,
        }
    }
}

impl Connection for Scripted<'_> {
    fn serve<K: Keeper, P: Pace>(
        self,
        alloc: Global,
        keeper: &mut K,
        pace: &mut P,
        cache: &mut IdentityCache,
    ) -> Served {
        let mut reader = Script::new(self.bytes, &[]);
        let mut writer = Tape::new(alloc, &[]);
        let served = serve_with(alloc, keeper, &mut reader, &mut writer, pace, cache);
        if writer.taken() == self.response {
            self.answered.store(true, Ordering::SeqCst);
        }
        served
    }
}
