//! Tests the limits of a batch: how many series there are, and how large their sums. Each row is
//! tested before it is added to its cell's. After a failed allocation the limits are tested without
//! putting any of the batch. That allocates nothing either: each word of a sum is added up by
//! itself.
ghost use Rattle.std.specs.Prelude.{◌≡◌, ℕ, ℤ, Bool, not, slice_index, ◌&&◌, ◌++◌, List, map};
ghost use Rattle.std.specs.Prelude.{length, sum, nat_le, nat_lt, if◌then◌else◌, ◌+◌, ◌*◌, ◌^◌, ◌-◌};
ghost use Rattle.std.specs.Prelude.{◌<◌, ◌≤◌};
ghost use Rattle.std.specs.List.{All};
ghost use Rattle.metric_events.specs.Rows as rows;
ghost use Rattle.metric_events.specs.Rows.{add_rows};
ghost use Rattle.series_id.specs.declared.kinds.Kind.TheVariants.{Sum, Histogram};
ghost use Rattle.metric_events.specs.Points.{admitted};
ghost use Rattle.metric_events.specs.Series.{series_count, sum_of};
ghost use Rattle.metric_events.specs.Legal.{is_too_large};
ghost use Rattle.metric_events.specs.declared.limits.TheConstants.{MAX_SERIES, MAX_BUCKET};
ghost use Rattle.metric_events.specs.declared.limits.TheConstants.{MAX_COUNT};
ghost use Rattle.delta_book.specs.declared.faults.AdmitFault.TheVariants.{TooManySeries, TooLarge};
ghost use Rattle.delta_book.specs.inner.Batches.{word_in, sum_with};
ghost use Rattle.delta_book.specs.Refusals.{limit_fault};
ghost use Rattle.delta_book.specs.Tables.{AreBooked};
ghost use Rattle.delta_book.specs.inner.Tables.{ForAccepted, ForPoints};
ghost use Rattle.series_id.specs.Identity.{row_length};
ghost use Rattle.metric_events.specs.DataPoint.{IsPoint};

use crate::cells::find_cell;
use crate::faults::AdmitFault;
use crate::lists::word_at;
use crate::without_alloc::count_series;
use bucket_lanes::{fits, total};
use metric_events::limits::{MAX_AMOUNT, MAX_BUCKET, MAX_COUNT, MAX_POINTS, MAX_SERIES, MAX_SUM};
use metric_events::point::Point;
use metric_events::row_limits::word_limit;
use series_cell::cell::Cell;
use series_id::{Kind, SharedId};

/// Each sum of two words is at most `most`.
fn are_within(row: &[u64], more: &[u64], most: u64) -> bool
    requires { length row.now ≡ length more.now }
    ensures { result ≡ rows.are_within (λ k. most) (add_rows row.now more.now) }
{
    fits(row, more, most)
}

/// Two rows of a sum are within its limits together.
fn is_sum_within(row: &[u64], more: &[u64]) -> bool
    requires row { length row.now ≡ 3 }
    requires more { length more.now ≡ 3 }
    ensures { (monotonic : Bool) → result ≡ rows.fits (Sum monotonic) (add_rows row.now more.now) }
{
    are_within(&row[..1], &more[..1], MAX_POINTS) && are_within(&row[1..], &more[1..], MAX_AMOUNT)
}

/// The first three words of two histograms are within their limits together.
fn is_head_within(row: &[u64], more: &[u64]) -> bool
    requires row { length row.now ≡ 3 }
    requires more { length more.now ≡ 3 }
    ensures { (bounds : List ℤ) → result ≡ rows.are_within (rows.word_limit (Histogram bounds))
        (add_rows row.now more.now) }
{
    are_within(&row[..2], &more[..2], MAX_POINTS) && are_within(&row[2..], &more[2..], MAX_SUM)
}

/// The counts of two rows of buckets are within the limit together.
fn are_counts_within(row: &[u64], more: &[u64]) -> bool
    ensures { result ≡ nat_le (sum (add_rows row.now more.now)) MAX_COUNT }
{
    let count = total(row);
    let most = u128::from(MAX_COUNT);
    if count > most {
        return false;
    }
    total(more) <= most - count
}

/// The buckets of two histograms are within their limits together.
fn are_buckets_within(row: &[u64], more: &[u64]) -> bool
    requires { length row.now ≡ length more.now }
    ensures { result ≡ (rows.are_within (λ k. MAX_BUCKET) (add_rows row.now more.now)
        && nat_le (sum (add_rows row.now more.now)) MAX_COUNT) }
{
    are_within(row, more, MAX_BUCKET) && are_counts_within(row, more)
}

/// Two rows of a histogram are within its limits together.
fn is_histogram_within(row: &[u64], more: &[u64]) -> bool
    requires row { 3 ≤ length row.now }
    requires same { length row.now ≡ length more.now }
    ensures { (bounds : List ℤ) → result ≡ rows.fits (Histogram bounds)
        (add_rows row.now more.now) }
{
    is_head_within(&row[..3], &more[..3]) && are_buckets_within(&row[3..], &more[3..])
}

/// Two rows of this kind are within its limits together.
pub fn is_within(kind: &Kind, row: &[u64], more: &[u64]) -> bool
    requires row { length row.now ≡ row_length kind.now }
    requires more { length more.now ≡ row_length kind.now }
    ensures { result ≡ rows.fits kind.now (add_rows row.now more.now) }
{
    match kind {
        Kind::Sum { .. } => is_sum_within(row, more),
        Kind::Histogram { .. } => is_histogram_within(row, more),
    }
}

/// There are more series than there may be.
pub fn exceeds_max_series(cells: &[Cell]) -> bool
    ensures { ForPoints cells.now (λ qs. result ≡ nat_lt MAX_SERIES (series_count qs)) }
{
    cells.len() > MAX_SERIES
}

/// The first limit that is exceeded, the spans of a batch with a too large sum being in the cells.
pub fn limit_of_large(cells: &[Cell]) -> AdmitFault
    ensures { ForPoints cells.now (λ qs.
        result ≡ (if nat_lt MAX_SERIES (series_count qs) then TooManySeries else TooLarge)) }
{
    if exceeds_max_series(cells) {
        AdmitFault::TooManySeries
    } else {
        AdmitFault::TooLarge
    }
}

fn accepted_word(cells: &[Cell], series: &SharedId, k: usize) -> u128
    ensures value { ForPoints cells.now (λ qs. result ≡ slice_index (sum_of series.now qs) k) }
    ensures few { result < 2 ^ 64 }
{
    match find_cell(cells, series) {
        Some(i) => u128::from(word_at(cells[i].accepted(), k)),
        None => 0,
    }
}

fn batch_word(batch: &[Point], series: &SharedId, k: usize) -> u128
    ensures value { result ≡ word_in series.now k batch.now }
    ensures few { result ≤ length batch.now * 2 ^ 64 }
{
    let mut total = 0;
    for p in batch {
        if p.shared_series().is_same(series) {
            total += u128::from(word_at(p.row(), k));
        }
    }
    total
}

/// Word `k` of the sum of a series with the batch's points.
fn word_total(cells: &[Cell], batch: &[Point], series: &SharedId, k: usize) -> u128
    ensures value { (b : ℕ) (s : List ℕ) → ForPoints cells.now (λ qs.
        result ≡ slice_index (sum_with b s series.now qs batch.now) k) }
    ensures few { result ≤ (1 + length batch.now) * 2 ^ 64 }
{
    accepted_word(cells, series, k) + batch_word(batch, series, k)
}

/// Word `k` of the sum is over its limit.
fn is_word_large(cells: &[Cell], batch: &[Point], series: &SharedId, k: usize) -> bool
    ensures { (b : ℕ) (s : List ℕ) → ForPoints cells.now (λ qs.
        result ≡ nat_lt (rows.word_limit series.now.kind k)
        (slice_index (sum_with b s series.now qs batch.now) k)) }
{
    u128::from(word_limit(series.as_series().kind(), k)) < word_total(cells, batch, series, k)
}

/// One of the `n` words of the sum is over its limit.
fn has_large_word(cells: &[Cell], batch: &[Point], series: &SharedId, n: usize) -> bool
    ensures { (b : ℕ) (s : List ℕ) → ForPoints cells.now (λ qs.
        length (sum_with b s series.now qs batch.now) ≡ n
        → result ≡ not (rows.are_within (rows.word_limit series.now.kind)
        (sum_with b s series.now qs batch.now))) }
{
    for k in 0..n {
        if is_word_large(cells, batch, series, k) {
            return true;
        }
    }
    false
}

/// The buckets among the `n` words of the sum are over their limit together.
fn has_many_counts(cells: &[Cell], batch: &[Point], series: &SharedId, n: usize) -> bool
    requires { 3 ≤ n }
    ensures { (b : ℕ) (s : List ℕ) → ForPoints cells.now (λ qs.
        length (sum_with b s series.now qs batch.now) ≡ n
        → result ≡ nat_lt MAX_COUNT
        (sum (rows.buckets_of (sum_with b s series.now qs batch.now)))) }
{
    let mut total = 0;
    for k in 3..n {
        total += word_total(cells, batch, series, k);
        if total > u128::from(MAX_COUNT) {
            return true;
        }
    }
    false
}

/// The sum of a series with the batch's points is over a limit.
fn is_series_over(cells: &[Cell], batch: &[Point], series: &SharedId) -> bool
    ensures { (b : ℕ) (s : List ℕ) → ForPoints cells.now (λ qs.
        length (sum_with b s series.now qs batch.now) ≡ row_length series.now.kind
        → result ≡ not (rows.fits series.now.kind (sum_with b s series.now qs batch.now))) }
{
    let n = series.as_series().row_len();
    match series.as_series().kind() {
        Kind::Sum { .. } => has_large_word(cells, batch, series, n),
        Kind::Histogram { .. } => {
            has_large_word(cells, batch, series, n) || has_many_counts(cells, batch, series, n)
        }
    }
}

fn is_large(cells: &[Cell], batch: &[Point]) -> bool
    requires accepted { AreBooked cells.now }
    requires made { All IsPoint batch.now }
    ensures { (b : ℕ) (s : List ℕ) → ForAccepted cells.now (λ qs.
        result ≡ is_too_large (qs ++ map (admitted b s) batch.now) batch.now) }
{
    for p in batch {
        if is_series_over(cells, batch, p.shared_series()) {
            return true;
        }
    }
    false
}

/// The first limit that the batch would exceed.
pub fn limit_without_alloc(cells: &[Cell], batch: &[Point]) -> Option<AdmitFault>
    requires few { length cells.now ≤ MAX_SERIES }
    requires accepted { AreBooked cells.now }
    requires made { All IsPoint batch.now }
    ensures { (b : ℕ) (s : List ℕ) → ForAccepted cells.now (λ qs.
        result ≡ limit_fault (qs ++ map (admitted b s) batch.now) batch.now) }
{
    if count_series(cells, batch) > MAX_SERIES {
        return Some(AdmitFault::TooManySeries);
    }
    if is_large(cells, batch) {
        return Some(AdmitFault::TooLarge);
    }
    None
}
