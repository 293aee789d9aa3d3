//! Runs a script: reads it, answers its lines, writes the replies.

ghost use Rattle.std.specs.Prelude.{◌≡◌, List, ℕ, Some};
ghost use Rattle.byte_ends.specs.Counts.{counted};
ghost use Rattle.metric_events.specs.History.{Start};
ghost use Rattle.delta_book.specs.Journal.{history};
ghost use Rattle.play_script.specs.inner.Answered.{IsReply, reply_text};
ghost use Rattle.play_script.specs.Commands.{command};
ghost use Rattle.play_script.specs.Ends.{StopsReading, cannot_read, cannot_write};
ghost use Rattle.play_script.specs.Pieces.{lines};
ghost use Rattle.play_script.specs.Played.{IsPlayed};
ghost use Rattle.play_script.specs.inner.Played.{LineIsAnswered, LinesArePlayed};

use crate::calls::reply_to;
use crate::command::command_of;
use crate::fault::PlayFault;
use crate::input::read_all;
use crate::output::write_all;
use crate::pieces::cut_line;
use crate::refusal::Refusal;
use crate::reply::{Reply, put_reply};
use byte_ends::{Sink, Source};
use delta_book::book::Book;
use std::alloc::Global;

/// Carries out a line and makes its reply.
fn reply_of<'a>(alloc: Global, book: &mut Book, line: &'a [u8]) -> Reply<'a>
    ensures { IsReply (history book.old) (command line.now) (reply_text result) (history book.new) }
{
    match command_of(alloc, line) {
        Ok(Some(command)) => reply_to(alloc, book, command),
        Ok(None) => Reply::BadCommand,
        Err(_) => Reply::Refused(Refusal::NoMemory),
    }
}

/// Makes a line's reply and writes it.
fn answer_line<W: Sink>(
    alloc: Global,
    book: &mut Book,
    line: &[u8],
    writer: &mut W,
) -> Result<(), PlayFault>
    ensures answered { LineIsAnswered (history book.old) (command line.now) (history book.new)
        (W.contents writer.old) (W.contents writer.new) result }
    ensures failed { W.failures writer.new ≡ counted W.one_more (cannot_write result)
        (W.failures writer.old) }
{
    let reply = reply_of(alloc, book, line);
    let mut text = Vec::new(alloc);
    if put_reply(&mut text, &reply).is_err() {
        return Err(PlayFault::NoMemory);
    }
    match write_all(writer, text.as_slice()) {
        Ok(()) => Ok(()),
        Err(_) => Err(PlayFault::CannotWrite),
    }
}

/// Answers the lines of an input, one after another.
fn answer_lines<W: Sink>(
    alloc: Global,
    book: &mut Book,
    input: &[u8],
    writer: &mut W,
) -> Result<(), PlayFault>
    requires { history book.old ≡ Start }
    ensures played { LinesArePlayed (W.contents writer.old) (W.contents writer.new)
        (lines input.now) result }
    ensures failed { W.failures writer.new ≡ counted W.one_more (cannot_write result)
        (W.failures writer.old) }
{
    let mut rest = input;
    while !rest.is_empty() {
        let (line, after) = cut_line(rest);
        answer_line(alloc, book, line, writer)?;
        rest = after;
    }
    Ok(())
}

/// Runs a script: reads all of it, makes the reply to each line and writes it.
///
/// Errors: `CannotRead` and `CannotWrite` where a call of the reader or the writer failed,
/// `TooLong` where the input has more than `MAX_INPUT` bytes, `NoMemory` where an allocation failed
/// that no reply could report. After `CannotRead`, or any error where the input is too long,
/// nothing was written; after another `NoMemory`, the replies to the lines before. The reader is
/// not called again after the call that passes the limit, which gives at most 4,096 bytes.
pub fn play<R: Source, W: Sink>(
    alloc: Global,
    reader: &mut R,
    writer: &mut W,
) -> Result<(), PlayFault>
    ensures played { (input : List ℕ) → R.remaining reader.old ≡ Some input → IsPlayed
        (W.contents writer.old) (W.contents writer.new) input result }
    ensures stops { StopsReading (R.remaining reader.old) (R.remaining reader.new)
        (R.given reader.new) result }
    ensures read { R.failures reader.new ≡ counted R.one_more (cannot_read result)
        (R.failures reader.old) }
    ensures written { W.failures writer.new ≡ counted W.one_more (cannot_write result)
        (W.failures writer.old) }
{
    let input = read_all(alloc, reader)?;
    let Ok(mut book) = Book::new(alloc) else {
        return Err(PlayFault::NoMemory);
    };
    answer_lines(alloc, &mut book, input.as_slice(), writer)
}
