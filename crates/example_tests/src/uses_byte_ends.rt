use byte_ends::{Failed, Script, Sink, Source, Step, Tape};
use std::test::Fail;

#[test]
fn copies_until_a_call_fails(rt: HostRuntime) -> Result<(), Fail> {
    let steps = [Step::AtMost(2), Step::Fail];
    let mut source = Script::new(b"abc", &steps);
    let mut sink = Tape::new(rt.alloc(), &[]);
    let mut buf = [0; 8];
    assert!(rt; source.read(&mut buf) == Ok(2));
    assert!(rt; sink.write(&buf[..2]) == Ok(2));
    assert!(rt; source.read(&mut buf) == Err(Failed));
    assert!(rt; source.left() == b"c".as_slice());
    assert!(rt; sink.taken() == b"ab".as_slice());
    Ok(())
}
