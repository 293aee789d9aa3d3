//! How long a connection may take as a whole.
ghost use Rattle.std.specs.Prelude.{◌≡◌, ◌-◌, ◌<◌, ◌↔◌, Option, IsNone, IfSome};
ghost use Rattle.std.specs.Duration.{as_nanos};
ghost use Rattle.std.specs.Result.{result_ok};
ghost use Rattle.std.specs.declared.time.Instant.{Instant};
ghost use Rattle.gateway_serve.specs.TimeLimit.{IsUnbegun, IsWait};

use std::io;
use std::io::ErrorKind;
use std::time::{Clock, Duration, Instant};

/// How many seconds a request has to come whole, head and body, from when a receiver takes its
/// connection.
pub const REQUEST_SECONDS: u64 = 60;

/// How many seconds an answer has to go out whole, from its first byte on.
pub const ANSWER_SECONDS: u64 = 30;

/// For how many seconds what still comes of a refused request is read and thrown away.
pub const REFUSED_SECONDS: u64 = 5;

/// For how many milliseconds a wait that a socket was told stands before the socket is told anew,
/// so that what comes at once costs no further call. A wait may end so much behind the limit.
const STANDS_MILLIS: u64 = 10;

/// The least wait that a socket takes, in nanoseconds.
const LEAST_NANOS: u128 = 1_000;

/// A clock that a limit is measured by.
pub trait MonotonicClock {
    /// What a call makes of it, with the instant that it reads, or none where it failed.
    ghost reads: { Self → Option Instant → Self → Type 0 };

    /// This instant.
    fn now(&mut self) -> io::Result<Instant>
        ensures { reads self.old (result_ok result) self.new };
}

impl<C: Clock> MonotonicClock for &C {
    /// A clock promises nothing of its time.
    ghost reads = { λ before instant after. Unit {0} };

    fn now(&mut self) -> io::Result<Instant> {
        Instant::now(*self)
    }
}

/// When a limit began to run, and when a socket was last told what was left of it.
#[derive(Clone, Copy)]
struct Run {
    begun: Instant,
    told: Instant,
}

/// What is left of a limit after so long. None where that is less than a socket takes.
fn wait_left(limit: Duration, elapsed: Duration) -> Option<Duration>
    ensures over { IsNone result ↔ (as_nanos limit - as_nanos elapsed < LEAST_NANOS) }
    ensures left { IfSome result (λ d. as_nanos d ≡ as_nanos limit - as_nanos elapsed) }
{
    let left = limit.saturating_sub(elapsed);
    if left.as_nanos() < LEAST_NANOS {
        None
    } else {
        Some(left)
    }
}

/// So many seconds, which begin to run at the first call.
#[derive(Drop)]
pub struct TimeLimit<M> {
    clock: M,
    whole: Duration,
    run: Option<Run>,
}

impl<M: MonotonicClock> TimeLimit<M> {
    /// So many seconds, which have not begun.
    pub fn new(clock: M, seconds: u64) -> Self
        ensures clock { result.clock ≡ clock }
        ensures seconds { IsUnbegun result seconds }
    {
        TimeLimit {
            clock,
            whole: Duration::from_secs(seconds),
            run: None,
        }
    }

    /// How long the socket may wait at its next call, where it has to be told: what is left.
    /// `TimedOut` once nothing is. A clock that fails fails the call: without one nothing would
    /// bound the wait.
    pub fn next_wait(&mut self) -> io::Result<Option<Duration>>
        ensures wait { (now : Option Instant) × M.reads self.old.clock now self.new.clock
            × IsWait self.old.whole self.old.run now (result_ok result) self.new.run }
        ensures whole { self.new.whole ≡ self.old.whole }
    {
        let now = self.clock.now()?;
        let begun = match self.run {
            Some(run) => run.begun,
            None => now,
        };
        let Some(left) = wait_left(self.whole, now.duration_since(begun)) else {
            return Err(io::Error::from(ErrorKind::TimedOut));
        };
        let stands = Duration::from_millis(STANDS_MILLIS);
        if let Some(run) = self.run {
            if now.duration_since(run.told) < stands {
                return Ok(None);
            }
        }
        self.run = Some(Run { begun, told: now });
        Ok(Some(left))
    }
}
