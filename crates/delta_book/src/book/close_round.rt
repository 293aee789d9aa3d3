//! Closes a round and begins the next one.
ghost use Rattle.std.specs.Prelude.{◌≡◌, map, IfOk, IfErr, OnOk, OnErr, unwrap_or, None};
ghost use Rattle.metric_events.specs.Standing.{standing};
ghost use Rattle.metric_events.specs.Close.{close, renewed_standing};
ghost use Rattle.delta_book.specs.Journal.{history};
ghost use Rattle.metric_events.specs.History.{opening};
ghost use Rattle.delta_book.specs.PastRows.{past_row, past_of, past_rows};
ghost use Rattle.delta_book.specs.Rounds.{round_refusal, closed};

use crate::book::Book;
use crate::faults::RoundFault;
use crate::opening::{LAST_ROUND, carry_all, next_opening};
use crate::totals::PastTotals;
use metric_events::opened_series::OpenedSeries;
use std::alloc::{AllocError, Global};

fn past_totals(alloc: Global, s: &OpenedSeries) -> Result<PastTotals, AllocError>
    ensures { IfOk result (λ p. past_row p ≡ past_of s.now) }
{
    let acknowledged = s.acknowledged.as_slice().to_vec(alloc)?;
    let dropped = s.dropped.as_slice().to_vec(alloc)?;
    Ok(PastTotals {
        series: s.series.share()?,
        acknowledged,
        dropped,
    })
}

fn all_past(alloc: Global, series: &[OpenedSeries]) -> Result<Vec<PastTotals>, AllocError>
    ensures { IfOk result (λ v. map past_row v.items ≡ map past_of series.now) }
{
    let mut all = Vec::new(alloc);
    for s in series {
        all.push(past_totals(alloc, s)?)?;
    }
    Ok(all)
}

impl Book {
    /// The number of the round, from 1 on.
    pub fn round(&self) -> u64
        ensures { result ≡ (opening (history self.now)).round }
    {
        self.opening.round
    }

    /// What was acknowledged and dropped in earlier rounds: one row a series of the opening, in
    /// series order.
    pub fn past(&self) -> Result<Vec<PastTotals>, AllocError>
        ensures { IfOk result (λ v. map past_row v.items ≡ past_rows (history self.now)) }
    {
        all_past(self.alloc, self.opening.series.as_slice())
    }

    /// The first refusal that applies.
    fn round_fault(&self) -> Option<RoundFault>
        ensures { result ≡ round_refusal (history self.now) }
    {
        if self.opened.len() > 0 {
            return Some(RoundFault::BatchOpen);
        }
        if self.live.len() > 0 {
            return Some(RoundFault::FlushLive);
        }
        if self.opening.round >= LAST_ROUND {
            return Some(RoundFault::LastRound);
        }
        None
    }

    /// Closes the round, begins the next one and returns its number. Refusals in this order:
    /// `BatchOpen`, `FlushLive`, `LastRound`, `NoMemory`; they change nothing.
    pub fn close_round(&mut self) -> Result<u64, RoundFault>
        ensures number { IfOk result (λ n. n ≡ (close (history self.old)).round) }
        ensures ok { OnOk result (self.new ≡ closed self.old) }
        ensures none { OnOk result (round_refusal (history self.old) ≡ None) }
        ensures fault { IfErr result (λ e. e ≡ unwrap_or (round_refusal (history self.old))
            RoundFault.NoMemory) }
        ensures err { OnErr result (self.new ≡ self.old) }
        ensures stands { OnOk result (standing (history self.new) ≡ renewed_standing
            (standing (history self.old))) }
    {
        if let Some(fault) = self.round_fault() {
            return Err(fault);
        }
        let Ok(opening) = next_opening(
            self.alloc,
            &self.cells,
            &self.held,
            &self.opening,
            self.batches,
            self.flushes,
        ) else {
            return Err(RoundFault::NoMemory);
        };
        let round = opening.round;
        self.passed = 0;
        carry_all(&mut self.cells);
        self.opening = opening;
        self.entries.clear();
        Ok(round)
    }
}
