//! The command line: its subcommands and options, with their ranges and defaults.
ghost use Rattle.std.specs.Prelude.{◌≡◌, IfErr, IfNone, IfOk, IfSome, false, map};
ghost use Rattle.clap.specs.Words.{app_of, rule_of, found_of, rows_of, subcommand_rows_of};
ghost use Rattle.gateway_options.specs.CommandLine as spec;
ghost use Rattle.gateway_options.specs.CommandLine.{IsMeant, IsGiven, AreServed};
ghost use Rattle.gateway_options.specs.LineFault.{IsRefused};
ghost use Rattle.gateway_options.specs.inner.CommandLine.{IsCommand, IsOwn};
ghost use Rattle.gateway_options.specs.CommandLine.{AreRehearsed, with_numbers};
ghost use Rattle.gateway_options.specs.inner.NumberOption.{described};

use crate::line_fault::LineFault;
use crate::number_option::NumberOption;
use crate::rehearse_options::RehearseOptions;
use crate::serve_options::ServeOptions;
use crate::subcommand::Options;
use clap::error::ErrorKind;
use clap::{Arg, ArgMatches, Command};
use std::alloc::{AllocError, Global};

/// A numeric option with a range. `clap` and `read` both refuse by this range, and the help text
/// names it.
macro_rules! number {
    ($name:literal, $help:literal, $least:literal to $most:literal, $default:expr) => {
        NumberOption {
            name: $name,
            help: concat!($help, " (", $least, " to ", $most, ")"),
            default: $default,
            least: $least,
            most: $most,
        }
    };
}

const CONNECTIONS: NumberOption<'static> = number!(
    "connections",
    "How many connections are served before the gateway ends; an empty one counts",
    0 to 1000000,
    None
);

const RECEIVERS: NumberOption<'static> = number!(
    "receivers",
    "Threads that serve connections. An order to flush keeps one until the back end has \
     answered: take as many as orders at once, and two more",
    1 to 8,
    Some("2")
);

const FLUSHERS: NumberOption<'static> = number!(
    "flushers",
    "Threads that carry out the flushes that are ordered",
    1 to 4,
    Some("1")
);

const FLUSH_SERIES: NumberOption<'static> =
    number!("flush-series", "The most series of one flush", 1 to 1000, Some("1000"));

const ROUND: NumberOption<'static> = number!(
    "round",
    "Connections of a round, which keeps its batches in memory until it ends",
    1 to 32000,
    Some("32000")
);

const SENDERS: NumberOption<'static> =
    number!("senders", "Senders that post at once", 1 to 4, Some("2"));

const BATCHES: NumberOption<'static> =
    number!("batches", "Batches of each sender", 1 to 100, Some("3"));

/// The most connections that are served.
pub const MAX_CONNECTIONS: u32 = CONNECTIONS.most;

/// The most receivers.
pub const MAX_RECEIVERS: u32 = RECEIVERS.most;

/// The most flushers.
pub const MAX_FLUSHERS: u32 = FLUSHERS.most;

/// The most series of one flush.
pub const MAX_FLUSH_SERIES: u32 = FLUSH_SERIES.most;

/// The most connections of a round.
pub const MAX_ROUND: u32 = ROUND.most;

/// The most senders of a rehearsal.
pub const MAX_SENDERS: u32 = SENDERS.most;

/// The most batches of each sender of a rehearsal.
pub const MAX_BATCHES: u32 = BATCHES.most;

/// The most bytes of the back end's address.
pub const MAX_BACKEND: usize = 4_294_967_295;

/// Where senders connect if nothing else is said.
const DEFAULT_LISTEN: &str = "127.0.0.1:4318";

/// `--backend HOST:PORT`
fn backend<'a>(alloc: Global) -> Arg<'a>
    ensures rule { rule_of result ≡ spec.backend }
    ensures local { result.global ≡ false }
{
    Arg::new(alloc, "backend")
        .help("Where flushes are sent to, over HTTP/1.1")
        .value_name("HOST:PORT")
        .long("backend")
        .required(true)
}

/// `--listen HOST:PORT`
fn listen<'a>(alloc: Global) -> Arg<'a>
    ensures rule { rule_of result ≡ spec.listen }
    ensures local { result.global ≡ false }
{
    Arg::new(alloc, "listen")
        .help("Where senders connect")
        .value_name("HOST:PORT")
        .long("listen")
        .default_value(DEFAULT_LISTEN)
}

/// The command with these numeric options.
fn with_numbers<'a>(
    command: Command<'a>,
    alloc: Global,
    numbers: &[NumberOption<'static>],
) -> Result<Command<'a>, AllocError>
    requires own { IsOwn command }
    ensures { IfOk result (IsCommand (with_numbers (app_of command.entry)
        (map described numbers.now))) }
{
    let mut command = command;
    for number in numbers {
        command = command.arg(number.argument(alloc))?;
    }
    Ok(command)
}

/// The subcommand `serve`.
fn serve<'a>(alloc: Global) -> Result<Command<'a>, AllocError>
    ensures { IfOk result (IsCommand spec.serve) }
{
    let bare = Command::new(alloc, "serve").about(
        "Serves senders, forwards what is flushed, and prints the report at its end",
    );
    let addressed = bare.arg(backend(alloc))?.arg(listen(alloc))?;
    let numbers = [CONNECTIONS, RECEIVERS, FLUSHERS, FLUSH_SERIES, ROUND];
    with_numbers(addressed, alloc, &numbers)
}

/// The subcommand `rehearse`.
fn rehearse<'a>(alloc: Global) -> Result<Command<'a>, AllocError>
    ensures { IfOk result (IsCommand spec.rehearse) }
{
    let bare = Command::new(alloc, "rehearse").about(
        "Plays senders, a gateway and a back end in one process, and prints the report",
    );
    with_numbers(bare, alloc, &[SENDERS, BATCHES])
}

/// The whole command, with its two subcommands; one of them must be given.
fn command<'a>(alloc: Global) -> Result<Command<'a>, AllocError>
    ensures { IfOk result (λ c. app_of c ≡ spec.gateway) }
{
    let bare = Command::new(alloc, "gateway")
        .about("Adds up OTLP/HTTP+JSON delta metrics and forwards the totals to one back end")
        .subcommand_required(true);
    bare.subcommand(serve(alloc)?)?.subcommand(rehearse(alloc)?)
}

/// The options of `serve`, if each number is digits and in its range, and the back end's address is
/// no longer than `MAX_BACKEND`.
fn serve_options<'a>(matches: &ArgMatches<'a>) -> Option<ServeOptions<'a>>
    ensures served { IfSome result (AreServed (rows_of (found_of matches.now))) }
    ensures none { IfNone result ((o : ServeOptions) →
        ¬ (AreServed (rows_of (found_of matches.now)) o)) }
{
    let backend = matches.get_str("backend")?;
    if backend.len() > MAX_BACKEND {
        return None;
    }
    Some(ServeOptions {
        backend,
        listen: matches.get_str("listen")?,
        connections: CONNECTIONS.read(matches)?,
        receivers: RECEIVERS.read(matches)? as u16,
        flushers: FLUSHERS.read(matches)? as u16,
        flush_series: FLUSH_SERIES.read(matches)? as usize,
        round: ROUND.read(matches)?,
    })
}

/// The options of `rehearse`, if each number is digits and in its range.
fn rehearse_options(matches: &ArgMatches<'_>) -> Option<RehearseOptions>
    ensures rehearsed { IfSome result (AreRehearsed (rows_of (found_of matches.now))) }
    ensures none { IfNone result ((o : RehearseOptions) →
        ¬ (AreRehearsed (rows_of (found_of matches.now)) o)) }
{
    Some(RehearseOptions {
        senders: SENDERS.read(matches)? as u16,
        batches: BATCHES.read(matches)? as u16,
    })
}

/// The options of the subcommand that was given. None where its words mean none.
fn options_in<'a>(matches: &ArgMatches<'a>) -> Option<Options<'a>>
    ensures given { IfSome result (IsGiven (subcommand_rows_of matches.now)) }
    ensures none { IfNone result ((o : Options) → ¬ (IsGiven (subcommand_rows_of matches.now) o)) }
{
    match matches.subcommand_matches("serve") {
        Some(serve) => Some(Options::Serve(serve_options(serve)?)),
        None => {
            let rehearse = matches.subcommand_matches("rehearse")?;
            Some(Options::Rehearse(rehearse_options(rehearse)?))
        }
    }
}

/// Reads the options from the words of the command line; the first is the program's name.
///
/// Errors: `Line`, with a text for the user, if the words are faulty or ask for help, or a number
/// has a sign, or the back end's address is too long; `NoMemory`.
pub fn options<'a>(alloc: Global, words: &'a [&'a str]) -> Result<Options<'a>, LineFault>
    ensures meant { IfOk result (IsMeant (map (λ s. s.now) words.entry.now)) }
    ensures refused { IfErr result (IsRefused (map (λ s. s.now) words.entry.now)) }
{
    let mut command = command(alloc)?;
    let matches = command.try_get_matches_from_mut(words)?;
    match options_in(&matches) {
        Some(options) => Ok(options),
        None => {
            let error = command.error(ErrorKind::ValueValidation, "a number is digits alone")?;
            Err(LineFault::Line(error))
        }
    }
}
