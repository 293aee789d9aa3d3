//! Sums and comparisons of rows of 64-bit words by vector operations: eight words at a time, and
//! what is left after the last full block word by word. No call allocates. The contracts hold for
//! every word and every length; a slice keeps its length.
#![tactic(auto)]

mod adding;
mod blocks;
mod clearing;
mod fitting;
mod subtracting;
mod totals;

pub use adding::{add_into, move_into};
pub use clearing::{clear, is_zero};
pub use fitting::fits;
pub use subtracting::sub_from;
pub use totals::total;
