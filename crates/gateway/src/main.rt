//! The gateway. `serve` serves so many connections and prints the report and the sums of its
//! audits;
//! `rehearse` does so with senders and a back end of its own. A faulty line, or a call for help, is
//! answered on standard error with status 2, any other fault with status 1.
#![tactic(auto)]

ghost use Rattle.std.specs.Prelude.{◌≡◌, ◌≢◌, ◌↔◌, IsTrue};
ghost use Rattle.std.specs.IoError.{error_kind};
ghost use Rattle.std.specs.Process.{exit_status};
ghost use Rattle.std.specs.declared.io.ErrorKind.TheVariants.{OutOfMemory};

use gateway_options::{LineFault, Options, ServeOptions, options};
use gateway_rehearse::rehearse;
use gateway_serve::{GatewayFault, serve_all, serve_bound};
use std::fmt::Display;
use std::io::{ErrorKind, Write};
use std::net::TcpListener;
use std::process::ExitCode;
use std::{env, io};

/// Reports a fault on standard error.
fn fail<R: Eprint, F: Display + Drop>(rt: &R, fault: F) -> ExitCode
    ensures { exit_status result ≡ 1 }
{
    let _ = eprintln!(rt; "gateway: {fault}");
    ExitCode::from(1)
}

/// Whether memory was refused.
fn is_out_of_memory(error: &io::Error) -> bool
    ensures { IsTrue result ↔ (error_kind error.now ≡ OutOfMemory) }
{
    error.kind() == ErrorKind::OutOfMemory
}

/// Reports why the words of the command line could not be read: memory was refused, or else a word
/// is no text, which `clap` is not given and which is told as it tells a faulty line.
fn fail_to_read<R: Eprint>(rt: &R, error: io::Error) -> ExitCode
    ensures memory { error_kind error ≡ OutOfMemory → exit_status result ≡ 1 }
    ensures line { error_kind error ≢ OutOfMemory → exit_status result ≡ 2 }
{
    if is_out_of_memory(&error) {
        return fail(rt, GatewayFault::NoMemory);
    }
    let _ = eprint!(rt;
        "error: invalid UTF-8 was detected in one or more arguments\n\n\
         Usage: gateway <COMMAND>\n\n\
         For more information, try '--help'.\n"
    );
    ExitCode::from(2)
}

/// Prints what a run has returned, or reports its fault.
fn finish<F: Display + Drop>(rt: &HostRuntime, outcome: Result<Vec<u8>, F>) -> ExitCode {
    match outcome {
        Err(fault) => fail(rt, fault),
        Ok(text) => match io::writer(rt).write_all(text.as_slice()) {
            Ok(()) => ExitCode::SUCCESS,
            Err(_) => fail(rt, GatewayFault::CannotWrite),
        },
    }
}

fn main(rt: HostRuntime) -> ExitCode {
    let alloc = rt.alloc();
    let args = match env::args(&rt) {
        Ok(args) => args,
        Err(error) => return fail_to_read(&rt, error),
    };
    let collected: Result<Vec<String>, _> = args.collect(alloc);
    let Ok(words) = collected else {
        return fail(&rt, GatewayFault::NoMemory);
    };
    let mut texts: Vec<&str> = Vec::new(alloc);
    for word in &words {
        if texts.push(word.as_str()).is_err() {
            return fail(&rt, GatewayFault::NoMemory);
        }
    }
    match options(alloc, texts.as_slice()) {
        Err(LineFault::NoMemory) => fail(&rt, GatewayFault::NoMemory),
        Err(LineFault::Line(error)) => {
            let _ = eprint!(rt; "{error}");
            ExitCode::from(2)
        }
        Ok(Options::Serve(options)) => finish(&rt, serve_all(&rt, alloc, &options)),
        Ok(Options::Rehearse(options)) => {
            let serve = |listener: &TcpListener, options: &ServeOptions<'_>| {
                serve_bound(&rt, alloc, listener, options)
            };
            finish(&rt, rehearse(&rt, alloc, &options, serve))
        }
    }
}
