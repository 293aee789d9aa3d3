//! Scripts that are read or written in parts, or not to their end. Whole scripts with their replies
//! are in `tests/scripts`.

use byte_ends::{Script, Step, Tape};
use ensure::{ensure, ensure_eq};
use play_script::{PlayFault, play};
use std::test::Fail;

#[test]
fn cut_ends_change_nothing(rt: HostRuntime) -> Result<(), Fail> {
    let reads = [Step::AtMost(1), Step::AtMost(2), Step::AtMost(3)];
    let writes = [Step::AtMost(1), Step::AtMost(4)];
    let mut reader = Script::new(b"report\nsing\n", &reads);
    let mut writer = Tape::new(rt.alloc(), &writes);
    ensure_eq!(play(rt.alloc(), &mut reader, &mut writer), Ok(()));
    ensure_eq!(writer.taken(), b"end\nbad command\n".as_slice());
    Ok(())
}

#[test]
fn failing_reader(rt: HostRuntime) -> Result<(), Fail> {
    let reads = [Step::AtMost(7), Step::Fail];
    let mut reader = Script::new(b"report\nsing\n", &reads);
    let mut writer = Tape::new(rt.alloc(), &[]);
    let outcome = play(rt.alloc(), &mut reader, &mut writer);
    ensure_eq!(outcome, Err(PlayFault::CannotRead));
    ensure!(writer.taken().is_empty());
    Ok(())
}

// No clause counts the calls of a reader: one behind the end would fail here.
#[test]
fn nothing_is_read_behind_the_end(rt: HostRuntime) -> Result<(), Fail> {
    let reads = [Step::AtMost(12), Step::AtMost(1), Step::Fail];
    let mut reader = Script::new(b"report\nsing\n", &reads);
    let mut writer = Tape::new(rt.alloc(), &[]);
    ensure_eq!(play(rt.alloc(), &mut reader, &mut writer), Ok(()));
    ensure_eq!(writer.taken(), b"end\nbad command\n".as_slice());
    Ok(())
}

#[test]
fn failing_writer(rt: HostRuntime) -> Result<(), Fail> {
    let writes = [Step::AtMost(9), Step::AtMost(3), Step::Fail];
    let mut reader = Script::new(b"report\nsing\nreport\n", &[]);
    let mut writer = Tape::new(rt.alloc(), &writes);
    let outcome = play(rt.alloc(), &mut reader, &mut writer);
    ensure_eq!(outcome, Err(PlayFault::CannotWrite));
    ensure_eq!(writer.taken(), b"end\nbad".as_slice());
    Ok(())
}
