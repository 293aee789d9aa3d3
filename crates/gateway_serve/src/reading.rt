//! How much of a request was read before it was answered.
ghost use Rattle.std.specs.Prelude.{◌≡◌};
ghost use Rattle.gateway_serve.specs.declared.reading.Reading.TheVariants.{Open};
ghost use Rattle.gateway_serve.specs.inner.CutOff.{IsNoted};

use gate_workers::{Pace, Spot};

/// How much of a request was read.
#[derive(Clone, Copy, Debug, PartialEq, Eq)]
pub enum Reading {
    /// Not all of it, as far as is known.
    Open,
    /// All of it.
    Whole,
}

/// A pace that notes whether a request was read whole, and holds a worker as another one does.
#[derive(Drop)]
pub struct Noting<'a, P> {
    pace: &'a mut P,
    reading: Reading,
}

impl<'a, P> Noting<'a, P> {
    /// Nothing was read yet.
    pub fn new(pace: &'a mut P) -> Self
        ensures same_reference { result.pace.ghost_name ≡ pace.entry.ghost_name }
        ensures pace { result.pace.now ≡ pace.old }
        ensures reading { result.reading ≡ Open }
    {
        Noting {
            pace,
            reading: Reading::Open,
        }
    }

    /// How much was read.
    pub fn reading(&self) -> Reading
        ensures { result ≡ self.now.reading }
    {
        self.reading
    }
}

impl<P: Pace> Pace for Noting<'_, P> {
    type Pass = P::Pass;

    /// The other pace is asked at the same spot. Nothing is noted of other spots.
    ghost reaches = { λ before spot after. IsNoted before.reading spot after.reading
        × (after.pace.ghost_name ≡ before.pace.ghost_name)
        × P.reaches before.pace.now spot after.pace.now };

    fn at(&mut self, spot: Spot) -> P::Pass {
        if spot == Spot::BodyRead {
            self.reading = Reading::Whole;
        }
        self.pace.at(spot)
    }
}
