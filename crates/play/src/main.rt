//! Runs the script on standard input and writes the replies to standard output. It reports a fault
//! on standard error, with status 1.
#![tactic(auto)]

use byte_ends::{FromReader, ToWriter};
use play_script::play;
use std::io;
use std::process::ExitCode;

fn main(rt: HostRuntime) -> ExitCode {
    let mut reader = FromReader::new(rt.reader());
    let mut writer = ToWriter::new(io::writer(&rt));
    match play(rt.alloc(), &mut reader, &mut writer) {
        Ok(()) => ExitCode::SUCCESS,
        Err(fault) => {
            let _ = eprintln!(rt; "play: {fault}");
            ExitCode::from(1)
        }
    }
}
