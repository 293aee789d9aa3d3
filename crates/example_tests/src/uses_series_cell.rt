use crate::bodies::one_batch;
use bucket_lanes::fits;
use series_cell::cell::Cell;
use std::test::Fail;

#[test]
fn a_point_goes_out_and_lands(rt: HostRuntime) -> Result<(), Fail> {
    let alloc = rt.alloc();
    let batch = one_batch(alloc)?;
    let point = batch.points.as_slice().first().ok_or("no point")?;
    let mut cell = Cell::new(
        alloc,
        batch.sender.copy(alloc)?,
        point.series().copy(alloc)?,
    )?;
    assert!(rt; cell.id().is_same(point.series()));
    assert!(rt; cell.frontier() <= point.span().start());
    assert!(rt; cell.accepted().len() == point.row().len());
    assert!(rt; fits(cell.accepted(), point.row(), u64::MAX));
    cell.put(point, 1)?;
    assert!(rt; !cell.is_flying());
    cell.lift_off(1);
    cell.acknowledge();
    assert!(rt; cell.acknowledged() == [1, 5, 0].as_slice());
    Ok(())
}
