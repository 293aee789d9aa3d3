ghost use Rattle.std.specs.Prelude.{◌≡◌, IsOk, is_err};
ghost use Rattle.byte_ends.specs.Counts.{counted};
ghost use Rattle.byte_ends.specs.Drained.{IsDrained};

use crate::{Failed, Source};

/// How many bytes one call reads at most.
const PIECE: usize = 16_384;

/// Reads and discards at most `most` bytes, until the end or a failure. Takes no memory. A
/// connection that is closed with unread bytes is reset, and its peer may lose what was sent to
/// it.
pub fn drain<S: Source>(source: &mut S, most: usize) -> Result<(), Failed>
    ensures thrown { IsDrained (S.remaining source.old) (S.remaining source.new) most
        (IsOk result) }
    ensures failed { S.failures source.new ≡ counted S.one_more (is_err result)
        (S.failures source.old) }
{
    let mut piece = [0; PIECE];
    let mut left = most;
    while left > 0 {
        let room = left.min(PIECE);
        let n = source.read(&mut piece[..room])?;
        if n == 0 {
            return Ok(());
        }
        left -= n;
    }
    Ok(())
}
