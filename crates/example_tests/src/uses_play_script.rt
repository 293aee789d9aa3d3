use byte_ends::{Script, Tape};
use play_script::play;
use std::test::Fail;

#[test]
fn plays_a_script(rt: HostRuntime) -> Result<(), Fail> {
    let mut reader = Script::new(b"admit A req 10 20 5\ntake 10\nok 1\n", &[]);
    let mut writer = Tape::new(rt.alloc(), &[]);
    play(rt.alloc(), &mut reader, &mut writer)?;
    let replies = b"batch 1\nflush 1 points 1\npoint req (10,20] 1,5,0\nsettled 1\n";
    assert!(rt; writer.taken() == replies.as_slice());
    Ok(())
}
