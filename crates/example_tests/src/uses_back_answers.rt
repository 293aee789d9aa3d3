use back_answers::{Act, Answer, act, classify};
use std::test::Fail;

#[test]
fn a_busy_back_end_gets_its_flush_later(rt: HostRuntime) -> Result<(), Fail> {
    let answer = classify(503, Some(b"120"));
    assert!(rt; answer == Answer::Retryable { after: Some(120) });
    assert!(rt; act(answer) == Act::GiveBack);
    assert!(rt; act(classify(204, None)) == Act::Settle);
    assert!(rt; act(classify(400, None)) == Act::DropFlush);
    Ok(())
}
