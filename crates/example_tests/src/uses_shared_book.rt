ghost use Rattle.std.specs.Prelude.{◌≡◌};
ghost use Rattle.metric_events.specs.Opening.{first_opening};

use crate::bodies::one_batch;
use delta_book::book::Book;
use metric_events::batch::Batch;
use shared_book::round::Round;
use shared_book::shared::SharedBook;
use std::alloc::Global;
use std::marker::Brand;
use std::process::Abort;
use std::sync::Wait;
use std::sync::ledger::Blank;
use std::test::Fail;

/// One seat admits a batch in a round of its own, and the audit finds its entry.
fn round_of_one<L: Round, R: Wait + Abort>(
    rt: &R,
    alloc: Global,
    batch: Batch,
    blank: Blank,
) -> Result<(), Fail>
    requires name { blank.name ≡ L.name }
    requires ledger { blank.parts ≡ L.parts }
    requires parts { blank.parts ≡ 1 }
    requires opening { L.opening ≡ first_opening }
{
    assert!(rt; !batch.points.as_slice().is_empty());
    let Ok((shared, mut seats)) = SharedBook::<L>::new(alloc, Book::new(alloc)?, blank, 1) else {
        panic!(rt; "no memory");
    };
    let mut seat = seats.pop().ok_or("no seat")?;
    assert!(rt; shared.admit(rt, &mut seat, batch).is_ok());
    seats.push(seat)?;
    let Ok((_, audit)) = shared.finish(seats) else {
        panic!(rt; "the audit failed");
    };
    assert!(rt; (audit.events, audit.admitted) == (1, 1));
    Ok(())
}

#[test]
fn a_round_of_one_seat(rt: HostRuntime) -> Result<(), Fail> {
    let batch = one_batch(rt.alloc())?;
    round_of_one::<Brand, _>(&rt, rt.alloc(), batch, Blank::new(1))
}
