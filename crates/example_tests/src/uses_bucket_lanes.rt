use bucket_lanes::{add_into, fits, total};
use std::test::Fail;

#[test]
fn adds_a_row(rt: HostRuntime) -> Result<(), Fail> {
    let mut row = [1u64, 5, 0];
    let more = [1u64, 7, 2];
    assert!(rt; fits(&row, &more, u64::MAX), "a sum over 64 bits");
    add_into(&mut row, &more);
    assert!(rt; row == [2, 12, 2]);
    assert!(rt; total(&row) == 16);
    Ok(())
}
