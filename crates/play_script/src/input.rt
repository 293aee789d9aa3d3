//! Reads the input of a script.

ghost use Rattle.std.specs.Prelude.{◌≡◌, ◌≤◌, IfOk, IfErr, length, vec_len};
ghost use Rattle.byte_ends.specs.Counts.{counted};
ghost use Rattle.byte_ends.specs.Ends.{AreAll};
ghost use Rattle.play_script.specs.Ends.{StopsReading, cannot_read};
ghost use Rattle.play_script.specs.inner.Ends.{IsReadFault};

use crate::fault::PlayFault;
use byte_ends::Source;
use std::alloc::Global;

/// The most bytes of an input.
pub const MAX_INPUT: usize = 16_777_216;

/// The most bytes that one call of the reader is asked for.
pub const MAX_PIECE: usize = 4096;

/// Reads all bytes, at most `MAX_INPUT` of them. So a reader without end gives `TooLong`, and the
/// call that passes the limit is the last one.
pub fn read_all<R: Source>(alloc: Global, reader: &mut R) -> Result<Vec<u8>, PlayFault>
    ensures all { IfOk result (λ input. AreAll (R.remaining reader.old) input.items) }
    ensures short { IfOk result (λ input. vec_len input ≤ MAX_INPUT) }
    ensures fault { IfErr result (λ fault. IsReadFault (R.remaining reader.old) MAX_INPUT fault) }
    ensures stops { StopsReading (R.remaining reader.old) (R.remaining reader.new)
        (R.given reader.new) result }
    ensures failed { R.failures reader.new ≡ counted R.one_more (cannot_read result)
        (R.failures reader.old) }
{
    let mut input = Vec::new(alloc);
    let mut piece = [0; MAX_PIECE];
    loop {
        let Ok(count) = reader.read(&mut piece) else {
            return Err(PlayFault::CannotRead);
        };
        if count == 0 {
            return Ok(input);
        }
        if count > MAX_INPUT - input.len() {
            return Err(PlayFault::TooLong);
        }
        if input.extend_from_slice(&piece[..count]).is_err() {
            return Err(PlayFault::NoMemory);
        }
    }
}
