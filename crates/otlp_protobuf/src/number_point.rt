//! What the bytes of a sum's point say (`NumberDataPoint`).

ghost use Rattle.std.specs.Prelude.{◌≡◌};
ghost use Rattle.otlp_protobuf.specs.Points.{take_number, no_number};

use crate::fields::Field;
use crate::scan::{Gathered, bits};

/// A point without its attributes: times in nanoseconds, the bits of its double, its whole number,
/// and its flags.
#[derive(Clone, Copy)]
pub struct NumberPoint {
    pub start: Option<u64>,
    pub end: Option<u64>,
    pub double: Option<u64>,
    pub int: Option<i64>,
    pub flags: Option<u32>,
}

impl NumberPoint {
    /// A point that says nothing.
    pub fn new() -> NumberPoint
        ensures { result ≡ no_number }
    {
        NumberPoint {
            start: None,
            end: None,
            double: None,
            int: None,
            flags: None,
        }
    }
}

impl Gathered for NumberPoint {
    ghost takes = { take_number };

    #[tactic(auto, unfolding(crate::specs::Points::take_number))]
    fn take(self, field: Field<'_>) -> NumberPoint {
        let bits = bits(field.payload);
        let mut point = self;
        match field.number {
            2 => point.start = Some(bits),
            3 => point.end = Some(bits),
            4 => {
                point.double = Some(bits);
                point.int = None;
            }
            6 => {
                point.double = None;
                point.int = Some(bits.cast_signed());
            }
            8 => point.flags = Some((bits % 4_294_967_296) as u32),
            _ => {}
        }
        point
    }
}
