//! The rows of a cell, and a row of zeros.
ghost use Rattle.std.specs.Prelude.{◌≡◌, ◌-◌, ◌^◌, length, IfOk};
ghost use Rattle.bucket_lanes.specs.ByPlace.{Fits, Covers, AreDifferences};
ghost use Rattle.metric_events.specs.Rows.{add_rows, zeros};
ghost use Rattle.series_cell.specs.inner.Rows.{zero_rows};

use crate::row_block::{ROWS, add_to, clear_row, copy_row, move_row, row, take_from};
use std::alloc::{AllocError, Global};
use std::marker::Model;

// The places of the rows in their block.

const ACCEPTED: usize = 0;

const STORED: usize = 1;

const IN_FLIGHT: usize = 2;

const ACKNOWLEDGED: usize = 3;

const DROPPED: usize = 4;

/// A row of `len` words, each 0. Fails only if an allocation fails.
pub fn zero_row(alloc: Global, len: usize) -> Result<Vec<u64>, AllocError>
    ensures { IfOk result (λ v. v.items ≡ zeros len) }
{
    let mut row = Vec::new(alloc);
    row.resize(len, 0)?;
    Ok(row)
}

/// Five rows of one length in one block: what was accepted, what is pending (`stored`), in flight,
/// acknowledged and dropped.
#[derive(Drop)]
pub(crate) struct Rows {
    words: Vec<u64>,
}

impl Model for Rows {
    ghost use Rattle.series_cell.specs.inner.Rows.{FiveRows, rows_of};

    ghost Value = { FiveRows };

    ghost view = { λ r. rows_of r.words.items };
}

impl Rows {
    /// Rows of `len` words, each 0. Fails only if an allocation fails.
    pub(crate) fn new(alloc: Global, len: usize) -> Result<Rows, AllocError>
        ensures { IfOk result (λ rows. rows ≡ zero_rows len) }
    {
        let words = zero_row(alloc, len.saturating_mul(ROWS))?;
        Ok(Rows { words })
    }

    /// Adds the row of a point that is accepted and pending.
    pub(crate) fn add(&mut self, more: &[u64])
        requires same { length self.old.accepted ≡ length more.now }
        requires accepted { Fits (2 ^ 64 - 1) self.old.accepted more.now }
        requires stored { Fits (2 ^ 64 - 1) self.old.stored more.now }
        ensures { self.new ≡ record self.old {
          accepted = add_rows self.old.accepted more.now;
          stored = add_rows self.old.stored more.now;
        } }
    {
        let words = self.words.as_mut_slice();
        add_to(words, ACCEPTED, more);
        add_to(words, STORED, more);
    }

    /// Subtracts the row of a pending point.
    pub(crate) fn sub(&mut self, part: &[u64])
        requires same { length self.old.accepted ≡ length part.now }
        requires accepted { Covers self.old.accepted part.now }
        requires stored { Covers self.old.stored part.now }
        ensures sizes { (length self.new.accepted ≡ length self.old.accepted)
            × (length self.new.stored ≡ length self.old.stored) }
        ensures accepted { AreDifferences self.old.accepted part.now self.new.accepted }
        ensures stored { AreDifferences self.old.stored part.now self.new.stored }
        ensures rest { self.new ≡ record self.old {
          accepted = self.new.accepted;
          stored = self.new.stored;
        } }
    {
        let words = self.words.as_mut_slice();
        take_from(words, ACCEPTED, part);
        take_from(words, STORED, part);
    }

    /// What is pending goes into flight.
    pub(crate) fn lift_off(&mut self)
        requires { Fits (2 ^ 64 - 1) self.old.in_flight self.old.stored }
        ensures { self.new ≡ record self.old {
          in_flight = add_rows self.old.in_flight self.old.stored;
          stored = zeros (length self.old.stored);
        } }
    {
        move_row(&mut self.words, STORED, IN_FLIGHT);
    }

    /// What is in flight is pending again.
    pub(crate) fn set_down(&mut self)
        requires { Fits (2 ^ 64 - 1) self.old.stored self.old.in_flight }
        ensures { self.new ≡ record self.old {
          stored = add_rows self.old.stored self.old.in_flight;
          in_flight = zeros (length self.old.in_flight);
        } }
    {
        move_row(&mut self.words, IN_FLIGHT, STORED);
    }

    /// What is in flight is acknowledged.
    pub(crate) fn acknowledge(&mut self)
        requires { Fits (2 ^ 64 - 1) self.old.acknowledged self.old.in_flight }
        ensures { self.new ≡ record self.old {
          acknowledged = add_rows self.old.acknowledged self.old.in_flight;
          in_flight = zeros (length self.old.in_flight);
        } }
    {
        move_row(&mut self.words, IN_FLIGHT, ACKNOWLEDGED);
    }

    /// What is in flight is dropped.
    pub(crate) fn discard(&mut self)
        requires { Fits (2 ^ 64 - 1) self.old.dropped self.old.in_flight }
        ensures { self.new ≡ record self.old {
          dropped = add_rows self.old.dropped self.old.in_flight;
          in_flight = zeros (length self.old.in_flight);
        } }
    {
        move_row(&mut self.words, IN_FLIGHT, DROPPED);
    }

    /// What is pending becomes all that was accepted, and nothing has landed.
    pub(crate) fn carry(&mut self)
        ensures { self.new ≡ record self.old {
          accepted = self.old.stored;
          acknowledged = zeros (length self.old.acknowledged);
          dropped = zeros (length self.old.dropped);
        } }
    {
        let words = self.words.as_mut_slice();
        copy_row(words, STORED, ACCEPTED);
        clear_row(words, ACKNOWLEDGED);
        clear_row(words, DROPPED);
    }

    /// The row of what was accepted.
    pub(crate) fn accepted(&self) -> &[u64]
        ensures { result.now ≡ self.now.accepted }
    {
        row(&self.words, ACCEPTED)
    }

    /// The row of what is pending.
    pub(crate) fn stored(&self) -> &[u64]
        ensures { result.now ≡ self.now.stored }
    {
        row(&self.words, STORED)
    }

    /// The row of what is in flight.
    pub(crate) fn in_flight(&self) -> &[u64]
        ensures { result.now ≡ self.now.in_flight }
    {
        row(&self.words, IN_FLIGHT)
    }

    /// The row of what was acknowledged.
    pub(crate) fn acknowledged(&self) -> &[u64]
        ensures { result.now ≡ self.now.acknowledged }
    {
        row(&self.words, ACKNOWLEDGED)
    }

    /// The row of what was dropped.
    pub(crate) fn dropped(&self) -> &[u64]
        ensures { result.now ≡ self.now.dropped }
    {
        row(&self.words, DROPPED)
    }
}
