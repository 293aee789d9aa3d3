//! Five rows of words, one after another in one block, and numbered from 0.
ghost use Rattle.std.specs.Prelude.{◌≡◌, ◌≢◌, ℕ, ◌+◌, ◌-◌, ◌*◌, ◌<◌, ◌≤◌, ◌^◌, length};
ghost use Rattle.bucket_lanes.specs.ByPlace.{Fits, Covers, AreDifferences};
ghost use Rattle.metric_events.specs.Rows.{add_rows, zeros};
ghost use Rattle.series_cell.specs.inner.Rows.{row_size, row_of};

use bucket_lanes::{add_into, clear, move_into, sub_from};

/// How many rows a block has.
pub const ROWS: usize = 5;

/// How many words each row has.
fn row_len(words: &[u64]) -> usize
    ensures { result ≡ row_size words.now }
{
    words.len() / ROWS
}

/// Where a row begins.
fn row_start(words: &[u64], row: usize) -> usize
    requires { row < 5 }
    ensures value { result ≡ row * row_size words.now }
    ensures inside { result + row_size words.now ≤ length words.now }
{
    row * row_len(words)
}

/// One of the rows.
pub fn row(words: &[u64], row: usize) -> &[u64]
    requires { row < 5 }
    ensures { result.now ≡ row_of row words.now }
{
    let start = row_start(words, row);
    &words[start..start + row_len(words)]
}

/// Adds to one of the rows.
pub fn add_to(words: &mut [u64], row: usize, more: &[u64])
    requires row { row < 5 }
    requires same { length more.now ≡ row_size words.old }
    requires fits { Fits (2 ^ 64 - 1) (row_of row words.old) more.now }
    ensures sum { row_of row words.new ≡ add_rows (row_of row words.old) more.now }
    ensures rest { (k : ℕ) → k ≢ row → row_of k words.new ≡ row_of k words.old }
{
    let start = row_start(words, row);
    add_into(&mut words[start..start + more.len()], more);
}

/// Subtracts from one of the rows.
pub fn take_from(words: &mut [u64], row: usize, part: &[u64])
    requires row { row < 5 }
    requires same { length part.now ≡ row_size words.old }
    requires within { Covers (row_of row words.old) part.now }
    ensures size { length (row_of row words.new) ≡ row_size words.old }
    ensures difference { AreDifferences (row_of row words.old) part.now (row_of row words.new) }
    ensures rest { (k : ℕ) → k ≢ row → row_of k words.new ≡ row_of k words.old }
{
    let start = row_start(words, row);
    sub_from(&mut words[start..start + part.len()], part);
}

/// Adds one of the rows to another, and sets its words to 0.
pub fn move_row(words: &mut [u64], from: usize, to: usize)
    requires rows { (from < 5) × (to < 5) }
    requires apart { from ≢ to }
    requires fits { Fits (2 ^ 64 - 1) (row_of to words.old) (row_of from words.old) }
    ensures sum { row_of to words.new ≡ add_rows (row_of to words.old) (row_of from words.old) }
    ensures none { row_of from words.new ≡ zeros (row_size words.old) }
    ensures rest { (k : ℕ) → k ≢ from → k ≢ to → row_of k words.new ≡ row_of k words.old }
{
    let len = row_len(words);
    let source = row_start(words, from);
    let target = row_start(words, to);
    if from < to {
        let (front, back) = words.split_at_mut(target);
        move_into(&mut back[..len], &mut front[source..source + len]);
    } else {
        let (front, back) = words.split_at_mut(source);
        move_into(&mut front[target..target + len], &mut back[..len]);
    }
}

/// Copies one of the rows over another.
pub fn copy_row(words: &mut [u64], from: usize, to: usize)
    requires { (from < 5) × (to < 5) }
    ensures copy { row_of to words.new ≡ row_of from words.old }
    ensures rest { (k : ℕ) → k ≢ to → row_of k words.new ≡ row_of k words.old }
{
    let source = row_start(words, from);
    let target = row_start(words, to);
    words.copy_within(source..source + row_len(words), target);
}

/// Sets the words of one of the rows to 0.
pub fn clear_row(words: &mut [u64], row: usize)
    requires { row < 5 }
    ensures none { row_of row words.new ≡ zeros (row_size words.old) }
    ensures rest { (k : ℕ) → k ≢ row → row_of k words.new ≡ row_of k words.old }
{
    let start = row_start(words, row);
    let len = row_len(words);
    clear(&mut words[start..start + len]);
}
