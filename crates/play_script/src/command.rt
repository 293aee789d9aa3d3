//! What a line of a script asks for.

ghost use Rattle.std.specs.Prelude.{◌≡◌, ◌≤◌, ◌∷◌, Some, true, option_copied, IfSome, IfOk, OnErr};
ghost use Rattle.std.specs.Str.{bytes_eq};
ghost use Rattle.play_script.specs.Commands as spec;
ghost use Rattle.play_script.specs.Pieces.{words};
ghost use Rattle.play_script.specs.Run.{takes_memory};
ghost use Rattle.play_script.specs.inner.Views.{asked_by, rest_words, IsReady};
ghost use Rattle.metric_events.specs.Senders as senders;

use crate::numbers::{number, status};
use crate::pieces::cut_word;
use crate::point_line::PointLine;
use crate::points::read_points;
use back_answers::{Act, Answer, act, classify};
use metric_events::limits::MAX_TAKEN;
use metric_events::sender_name::is_sender_name;
use std::alloc::{AllocError, Global};

/// A command, with the bytes of its line that name senders and points.
#[derive(Drop)]
pub enum Command<'a> {
    /// Admit the points of this sender.
    Admit {
        sender: &'a [u8],
        points: Vec<PointLine<'a>>,
    },
    /// Take a flush of at most so many series.
    Take(u64),
    /// End a flush by this act. The back end asks to wait so many seconds.
    End {
        flush: u64,
        by: Act,
        wait: Option<u64>,
    },
    Report,
    Undo(u64),
    Confirm(u64),
    Quarantine(&'a [u8]),
    Lift(&'a [u8]),
    /// Admit the points of a request's body, which is the rest of the line.
    Post {
        sender: &'a [u8],
        body: &'a [u8],
    },
    /// Close the round and begin the next one.
    Round,
    /// Report what earlier rounds brought.
    Past,
    /// Take a flush of at most so many series and reply with the request that forwards it.
    Wire(u64),
}

/// The number, where the rest of the line is one word.
fn only_number(rest: Option<&[u8]>) -> Option<u64>
    ensures { result ≡ spec.only_number (rest_words rest.entry) }
{
    let word = cut_word(rest?);
    match word.rest {
        None => number(word.first),
        Some(_) => None,
    }
}

/// The name, where the rest of the line is one word.
fn only_name<'a>(rest: Option<&'a [u8]>) -> Option<&'a [u8]>
    ensures name { option_copied result ≡ spec.only_name (rest_words rest.entry) }
    ensures ready { IfSome result (λ name. senders.is_sender_name name.now ≡ true) }
{
    let word = cut_word(rest?);
    match word.rest {
        None if is_sender_name(word.first) => Some(word.first),
        None => None,
        Some(_) => None,
    }
}

/// `admit`: a sender and its points. The list of points takes memory.
fn admit<'a>(alloc: Global, rest: Option<&'a [u8]>) -> Result<Option<Command<'a>>, AllocError>
    ensures asks { IfOk result (λ command. asked_by command ≡ spec.admit_words
        (rest_words rest.entry)) }
    ensures ready { IfOk result IsReady }
    ensures memory { OnErr result (takes_memory (spec.admit_words (rest_words rest.entry)) ≡ true) }
{
    let Some(rest) = rest else {
        return Ok(None);
    };
    let sender = cut_word(rest);
    let Some(words) = sender.rest else {
        return Ok(None);
    };
    if !is_sender_name(sender.first) {
        return Ok(None);
    }
    let Some(points) = read_points(alloc, words)? else {
        return Ok(None);
    };
    Ok(Some(Command::Admit {
        sender: sender.first,
        points,
    }))
}

/// How many series a flush may take, where the rest of the line is one word.
fn only_taken(rest: Option<&[u8]>) -> Option<u64>
    ensures value { result ≡ spec.only_taken (rest_words rest.entry) }
    ensures low { IfSome result (λ max. 1 ≤ max) }
    ensures high { IfSome result (λ max. max ≤ MAX_TAKEN) }
{
    let max = only_number(rest)?;
    if max == 0 || max > MAX_TAKEN {
        return None;
    }
    Some(max)
}

/// The answer of this status, where the rest of the line is one word: its `Retry-After`.
fn answer_with_wait(code: &[u8], rest: &[u8]) -> Option<Answer>
    ensures { result ≡ spec.answer_in (code.now ∷ words rest.now) }
{
    let word = cut_word(rest);
    match word.rest {
        None if !word.first.is_empty() => Some(classify(status(code)?, Some(word.first))),
        None => None,
        Some(_) => None,
    }
}

/// The back end's answer in the rest of the line.
fn answer_of(text: &[u8]) -> Option<Answer>
    ensures { result ≡ spec.answer_in (words text.now) }
{
    let word = cut_word(text);
    match word.rest {
        None if word.first == b"none".as_slice() => Some(Answer::Unknown),
        None => Some(classify(status(word.first)?, None)),
        Some(rest) => answer_with_wait(word.first, rest),
    }
}

/// `answer`: a flush, and the back end's answer to its request.
fn answer(rest: Option<&[u8]>) -> Option<Command<'_>>
    ensures asks { asked_by result ≡ spec.answer_words (rest_words rest.entry) }
    ensures ready { IsReady result }
{
    let word = cut_word(rest?);
    let flush = number(word.first)?;
    let answer = answer_of(word.rest?)?;
    Some(Command::End {
        flush,
        by: act(answer),
        wait: answer.asked_wait(),
    })
}

/// The end of a flush by an act, without any wait.
fn end(by: Act, rest: Option<&[u8]>) -> Option<Command<'_>>
    ensures asks { asked_by result ≡ spec.end_words by (rest_words rest.entry) }
    ensures ready { IsReady result }
{
    let flush = only_number(rest)?;
    Some(Command::End {
        flush,
        by,
        wait: None,
    })
}

/// A command that has no further words.
fn alone<'a>(command: Command<'a>, rest: Option<&[u8]>) -> Option<Command<'a>>
    requires { IsReady (Some command) }
    ensures asks { asked_by result ≡ spec.nothing_more (asked_by (Some command.entry))
        (rest_words rest.entry) }
    ensures ready { IsReady result }
{
    match rest {
        None => Some(command),
        Some(_) => None,
    }
}

/// `post`: a sender, and a body, which is the rest of the line.
fn post(rest: Option<&[u8]>) -> Option<Command<'_>>
    ensures asks { asked_by result ≡ spec.post_words (rest_words rest.entry) }
    ensures ready { IsReady result }
{
    let sender = cut_word(rest?);
    let body = sender.rest?;
    if !is_sender_name(sender.first) {
        return None;
    }
    Some(Command::Post {
        sender: sender.first,
        body,
    })
}

fn is(word: &[u8], text: &[u8]) -> bool
    ensures { result ≡ bytes_eq word.now text.now }
{
    word == text
}

/// A command on senders or rounds, or the report.
fn other_command<'a>(word: &[u8], rest: Option<&'a [u8]>) -> Option<Command<'a>>
    ensures asks { asked_by result ≡ spec.other_command word.now (rest_words rest.entry) }
    ensures ready { IsReady result }
{
    if is(word, b"hold") {
        return Some(Command::Quarantine(only_name(rest)?));
    }
    if is(word, b"lift") {
        return Some(Command::Lift(only_name(rest)?));
    }
    if is(word, b"report") {
        return alone(Command::Report, rest);
    }
    if is(word, b"round") {
        return alone(Command::Round, rest);
    }
    if is(word, b"past") {
        return alone(Command::Past, rest);
    }
    None
}

/// A command on flushes, or one of those above.
fn flush_command<'a>(word: &[u8], rest: Option<&'a [u8]>) -> Option<Command<'a>>
    ensures asks { asked_by result ≡ spec.flush_command word.now (rest_words rest.entry) }
    ensures ready { IsReady result }
{
    if is(word, b"take") {
        return Some(Command::Take(only_taken(rest)?));
    }
    if is(word, b"wire") {
        return Some(Command::Wire(only_taken(rest)?));
    }
    if is(word, b"ok") {
        return end(Act::Settle, rest);
    }
    if is(word, b"back") {
        return end(Act::GiveBack, rest);
    }
    if is(word, b"drop") {
        return end(Act::DropFlush, rest);
    }
    if is(word, b"answer") {
        return answer(rest);
    }
    other_command(word, rest)
}

/// A command on a batch that is there, or one of those above.
fn batch_command<'a>(word: &[u8], rest: Option<&'a [u8]>) -> Option<Command<'a>>
    ensures asks { asked_by result ≡ spec.batch_command word.now (rest_words rest.entry) }
    ensures ready { IsReady result }
{
    if is(word, b"undo") {
        return Some(Command::Undo(only_number(rest)?));
    }
    if is(word, b"confirm") {
        return Some(Command::Confirm(only_number(rest)?));
    }
    flush_command(word, rest)
}

/// The command of a line, or None where it is none. Words are separated by one space. Numbers are
/// decimal digits and within their range, names are those that a sender may have. Only the list of
/// points of an `admit` line takes memory.
pub fn command_of<'a>(alloc: Global, line: &'a [u8]) -> Result<Option<Command<'a>>, AllocError>
    ensures asks { IfOk result (λ command. asked_by command ≡ spec.command line.now) }
    ensures ready { IfOk result IsReady }
    ensures memory { OnErr result (takes_memory (spec.command line.now) ≡ true) }
{
    let word = cut_word(line);
    if is(word.first, b"admit") {
        return admit(alloc, word.rest);
    }
    if is(word.first, b"post") {
        return Ok(post(word.rest));
    }
    Ok(batch_command(word.first, word.rest))
}
