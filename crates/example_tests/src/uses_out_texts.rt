use back_answers::Act;
use out_texts::{success_text, turn_text};
use std::test::Fail;

#[test]
fn writes_short_answers(rt: HostRuntime) -> Result<(), Fail> {
    let text = turn_text(rt.alloc(), 1, 3, Act::GiveBack, Some(2))?;
    let returned = r#"{"act":"returned","flush":"1","points":"3","retryAfter":"2"}"#;
    assert!(rt; text.as_slice() == returned.as_bytes());
    let text = success_text(rt.alloc(), 0)?;
    assert!(rt; text.as_slice() == b"{}".as_slice());
    Ok(())
}
