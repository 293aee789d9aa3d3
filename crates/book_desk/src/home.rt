//! Which book a series belongs to.
ghost use Rattle.std.specs.Prelude.{◌≡◌, ◌<◌, fold};
ghost use Rattle.book_desk.specs.Homes as homes;

use series_id::{AttrSet, AttrValue, Scalar, SeriesId};
use std::hash::{FoldHasher, Hasher};

/// Adds the value of an attribute to a hash: a text or an integer.
fn add_value(hasher: &mut FoldHasher, value: &AttrValue)
    ensures { hasher.new ≡ homes.with_value hasher.old value.now }
{
    match value {
        AttrValue::One(Scalar::Text(text)) => hasher.write(text.as_bytes()),
        AttrValue::One(Scalar::Int(number)) => hasher.write_i64(*number),
        _ => {}
    }
}

/// Adds the values of attributes, in key order.
#[tactic(auto, using(std::proofs::lemmas::List::Sums::fold_more))]
fn add_set(hasher: &mut FoldHasher, set: &AttrSet)
    ensures { hasher.new ≡ fold homes.with_attribute hasher.old set.now }
{
    for pair in set.pairs() {
        add_value(hasher, &pair.value);
    }
}

/// A hash of the parts in which series differ most: the resource, the metric's name and the point's
/// attributes.
#[tactic(auto, unfolding(crate::specs::Homes::hash))]
pub fn hash(series: &SeriesId) -> u64
    ensures { result ≡ homes.hash series.now }
{
    let mut hasher = FoldHasher::default();
    add_set(&mut hasher, series.resource());
    hasher.write(series.name().as_bytes());
    add_set(&mut hasher, series.attrs());
    hasher.finish()
}

/// The book of a series, of so many. Nothing on disk depends on it.
#[tactic(auto, unfolding(crate::specs::Homes::home))]
pub fn home(books: usize, series: &SeriesId) -> usize
    requires { 0 < books }
    ensures value { result ≡ homes.home books series.now }
    ensures within { result < books }
{
    if books == 1 {
        return 0;
    }
    (hash(series) % books as u64) as usize
}
