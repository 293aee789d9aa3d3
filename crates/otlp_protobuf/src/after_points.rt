//! What a sum or a histogram says of itself. Encoders write it after the points, which are passed
//! over by their sizes.

ghost use Rattle.std.specs.Prelude.{◌≡◌, ◌≢◌, ◌<◌, ℕ, None, option_map};
ghost use Rattle.otlp_protobuf.specs.Fields.{gathered, last, newer};
ghost use Rattle.otlp_protobuf.specs.inner.Views.{fields_data, payload_data};

use crate::fields::Fields;
use crate::runs::run_at;
use crate::scan::{last_of, last_two_of};
use crate::wire::Payload;

/// The key of a point.
const POINT: u8 = 10;

/// The last value of this number.
pub fn last_after_points<'a>(bytes: &'a [u8], number: u32) -> Option<Payload<'a>>
    requires { 1 < number }
    ensures { option_map payload_data result ≡ last number bytes.now }
{
    last_of(after_points(bytes), number)
}

/// The last values of two numbers.
pub fn last_two_after_points<'a>(
    bytes: &'a [u8],
    one: u32,
    other: u32,
) -> (Option<Payload<'a>>, Option<Payload<'a>>)
    requires one { 1 < one }
    requires other { 1 < other }
    ensures one { option_map payload_data result.0 ≡ last one bytes.now }
    ensures other { option_map payload_data result.1 ≡ last other bytes.now }
{
    last_two_of(after_points(bytes), one, other)
}

/// The fields after the points at the front.
fn after_points(bytes: &[u8]) -> Fields<'_>
    ensures { (number : ℕ) → number ≢ 1
        → gathered (newer number) None (fields_data result) ≡ last number bytes.now }
{
    let (size, count) = run_at(POINT, bytes);
    Fields {
        rest: &bytes[size..],
        left: bytes.len() - count,
    }
}
