use decimals::{capped, number_up_to};
use std::test::Fail;

#[test]
fn reads_a_number(rt: HostRuntime) -> Result<(), Fail> {
    assert!(rt; number_up_to(b"007", 10) == Some(7));
    assert!(rt; number_up_to(b"11", 10) == None);
    assert!(rt; number_up_to(b"+7", 10) == None);
    assert!(rt; capped(b"4000", 10) == Some(11));
    Ok(())
}
