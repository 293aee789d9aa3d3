ghost use Rattle.std.specs.Prelude.{◌≡◌};
ghost use Rattle.back_answers.specs.declared.answer.Answer.TheVariants.{Success};

use back_answers::Answer;
use byte_ends::{Script, Tape};
use delta_book::book::Book;
use gate_workers::{BookKeeper, NoPace, Served, Uplink, serve};
use std::test::Fail;

/// A back end that takes all.
#[derive(Drop)]
struct TakesAll;

impl Uplink for TakesAll {
    type Pass = ();

    ghost sends = { λ uplink bytes answer after. answer ≡ Success };

    fn send(&mut self, _pass: (), _bytes: &[u8]) -> Answer {
        Answer::Success
    }
}

#[test]
fn serves_an_order_to_flush(rt: HostRuntime) -> Result<(), Fail> {
    let alloc = rt.alloc();
    let mut keeper = BookKeeper::new(alloc, Book::new(alloc)?, 0, TakesAll, 1000);
    let mut reader = Script::new(b"POST /flush HTTP/1.1\r\n\r\n", &[]);
    let mut writer = Tape::new(alloc, &[]);
    let served = serve(alloc, &mut keeper, &mut reader, &mut writer, &mut NoPace);
    assert!(rt; matches!(served, Served::Replied { status: 200, .. }));
    assert!(rt; writer.taken().ends_with(b"\r\n\r\n{\"act\":\"nothing\"}"));
    Ok(())
}
