//! Reads doubles that are whole numbers, by their bits (IEEE 754, binary64).

ghost use Rattle.std.specs.Prelude.{◌≡◌, ◌^◌, ◌<◌};
ghost use Rattle.series_id.specs.declared.limits.TheConstants.{MAX_BOUND};
ghost use Rattle.otlp_read.specs.Integers.{unsigned_64, signed_in};
ghost use Rattle.otlp_protobuf.specs.Members.{double_data};
ghost use Rattle.otlp_protobuf.specs.inner.NumberViews.{small_size};

use series_id::limits::MAX_BOUND;

/// The bit of the sign.
const SIGN: u64 = 9_223_372_036_854_775_808;

/// The lowest bit of the exponent: what is below it are the digits behind the point.
const EXPONENT: u64 = 4_503_599_627_370_496;

/// The number of a double without a sign, if it is whole and of 64 bits.
fn small_size(size: u64) -> Option<u64>
    requires { size < 2 ^ 63 }
    ensures { result ≡ small_size size }
{
    if size == 0 {
        return Some(0);
    }
    let exponent = size / EXPONENT;
    let digits = EXPONENT + size % EXPONENT;
    if exponent < 1023 || exponent > 1086 {
        return None;
    }
    if exponent >= 1075 {
        return Some(digits << (exponent - 1075));
    }
    let behind = 1075 - exponent;
    if digits % (1 << behind) == 0 {
        Some(digits >> behind)
    } else {
        None
    }
}

/// The number of a double, if it is whole, of 64 bits and not below zero.
pub fn unsigned_double(bits: u64) -> Option<u64>
    ensures { result ≡ unsigned_64 (double_data bits) }
{
    let size = small_size(bits % SIGN)?;
    if bits < SIGN || size == 0 {
        Some(size)
    } else {
        None
    }
}

/// The number of a double, if it is whole and at most `MAX_BOUND` in absolute value.
pub fn bound_double(bits: u64) -> Option<i64>
    ensures { result ≡ signed_in MAX_BOUND MAX_BOUND (double_data bits) }
{
    let size = small_size(bits % SIGN)?;
    if size > MAX_BOUND {
        return None;
    }
    let number = size as i64;
    if bits < SIGN {
        Some(number)
    } else {
        Some(-number)
    }
}
