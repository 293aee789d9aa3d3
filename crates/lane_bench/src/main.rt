//! Runs one vector operation, or a plain loop in its place, many times: KERNEL WORDS TIMES. The
//! rows are 0 and stay 0. It prints how many results were right. `bench/lanes.py` times the runs.
#![tactic(auto)]

mod kernels;
mod plain;

ghost use Rattle.std.specs.Prelude.{◌≡◌, length};
ghost use Rattle.bucket_lanes.specs.ByPlace.{IsClear};

use bucket_lanes::{clear, is_zero};
use kernels::Kernel;
use plain::Loop;
use std::alloc::{AllocError, Global};
use std::env;
use std::process::ExitCode;

/// A row of words that are 0.
fn row(alloc: Global, words: usize) -> Result<Vec<u64>, AllocError> {
    let mut row = Vec::new(alloc);
    row.resize(words, 0)?;
    Ok(row)
}

/// Runs the operation or the loop with this name, and counts the right results; none if there is no
/// such name.
fn run(name: &str, dst: &mut [u64], src: &mut [u64], times: u64) -> Option<u64>
    requires { length dst.old ≡ length src.old }
{
    clear(dst);
    clear(src);
    match Kernel::of_name(name) {
        Some(kernel) => Some(kernels::run(kernel, dst, src, times)),
        None => match Loop::of_name(name) {
            Some(plain) => Some(plain::run(plain, dst, src, times)),
            None => None,
        },
    }
}

/// Runs what the words of the command line ask for, and returns the count of right results; none if
/// they are faulty. The first word is the program.
fn answer(alloc: Global, words: &[String]) -> Result<Option<u64>, AllocError> {
    if words.len() != 4 {
        return Ok(None);
    }
    let (Ok(long), Ok(times)) = (words[2].parse::<u16>(), words[3].parse::<u64>()) else {
        return Ok(None);
    };
    let mut dst = row(alloc, usize::from(long))?;
    let mut src = row(alloc, usize::from(long))?;
    if dst.len() != src.len() {
        return Ok(None);
    }
    let count = run(words[1].as_str(), &mut dst, &mut src, times);
    if is_zero(&dst) && is_zero(&src) {
        return Ok(count);
    }
    Ok(None)
}

fn main(rt: HostRuntime) -> ExitCode {
    let alloc = rt.alloc();
    let Ok(args) = env::args(&rt) else {
        return ExitCode::from(1);
    };
    let collected: Result<Vec<String>, _> = args.collect(alloc);
    let Ok(words) = collected else {
        return ExitCode::from(1);
    };
    match answer(alloc, words.as_slice()) {
        Ok(Some(count)) => {
            let _ = println!(rt; "{count}");
            ExitCode::SUCCESS
        }
        Ok(None) => ExitCode::from(2),
        Err(_) => ExitCode::from(1),
    }
}
