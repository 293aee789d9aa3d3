//! Writes texts.

ghost use Rattle.std.specs.Prelude.{◌≡◌, OnOk, OnErr, is_err};
ghost use Rattle.std.specs.Io.KnownBytes.{Appends};
ghost use Rattle.byte_ends.specs.Counts.{counted};
ghost use Rattle.play_script.specs.Ends.{AppendsPart};

use byte_ends::{Failed, Sink};

/// Writes the whole text. Where the writer fails, the first bytes of it may be written.
pub fn write_all<W: Sink>(writer: &mut W, text: &[u8]) -> Result<(), Failed>
    ensures ok { OnOk result (Appends (W.contents writer.old) (W.contents writer.new) text.now) }
    ensures err { OnErr result (AppendsPart (W.contents writer.old) (W.contents writer.new)
        text.now) }
    ensures failed { W.failures writer.new ≡ counted W.one_more (is_err result)
        (W.failures writer.old) }
{
    let mut rest = text;
    while !rest.is_empty() {
        let count = writer.write(rest)?;
        rest = &rest[count..];
    }
    Ok(())
}
