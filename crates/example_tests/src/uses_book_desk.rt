use crate::bodies::ONE_POINT;
use book_desk::desk::Desk;
use book_desk::end::End;
use book_desk::flushes::Flushes;
use book_desk::names::Names;
use book_desk::reader::Reader;
use book_desk::window::Window;
use std::test::Fail;

#[test]
fn a_post_goes_through_four_books(rt: HostRuntime) -> Result<(), Fail> {
    let alloc = rt.alloc();
    let mut reader = Reader::new(alloc);
    let mut desk = Desk::new(alloc, 4)?;
    let counts = reader.read(b"A", ONE_POINT.as_bytes(), 4, Window::ALL)?;
    assert!(rt; (counts.points, counts.foreign) == (1, 0));
    let mut names = Names::new(alloc);
    assert!(rt; reader.words(&mut names)?.len() == 4);
    assert!(rt; names.len() == 1);
    desk.admit(&mut reader)?;
    let mut flushes = Flushes::new(alloc);
    assert!(rt; desk.take(&mut flushes, 1000)? == 1);
    assert!(rt; flushes.write_request(0)?.series == 1);
    desk.end(&mut flushes, End::Settle)?;
    let mut closed: usize = 0;
    for i in 0..4 {
        if desk.close_round(i, 1) {
            closed = closed.saturating_add(1);
        }
    }
    assert!(rt; closed == 1);
    assert!(rt; desk.series() == 1);
    Ok(())
}
