//! Where a name is looked for first.
ghost use Rattle.std.specs.Prelude.{◌<◌};

use crate::name::Name;
use std::alloc::{AllocError, Global};

/// What is in a place that is free: no name has this number.
const FREE: usize = usize::MAX;
/// How many places there are at first.
const FIRST_PLACES: usize = 64;
/// At how many places a name is looked for. A name that finds all of these taken is not entered, so
/// whoever makes keys meet gets more numbers, and takes no more time.
pub const MOST_PLACES: usize = 32;

/// Numbers of names, in places that follow from their keys. Half of all are free, so of names whose
/// keys differ one in some billions finds no place. A hint: whoever asks compares the name that is
/// there, and no contract says what it has.
#[derive(Drop)]
pub struct Index {
    alloc: Global,
    places: Vec<usize>,
}

/// The place of a key after so many steps, whose length follows from the key.
fn place_of(key: u64, step: usize, places: usize) -> usize
    requires { 0 < places }
    ensures { result < places }
{
    let way = (step as u64).wrapping_mul(key >> 32 | 1);
    (key.wrapping_add(way) % places as u64) as usize
}

/// Puts a number into the first of its places that is free.
fn put_in(places: &mut [usize], key: u64, number: usize) {
    if places.is_empty() {
        return;
    }
    for step in 0..MOST_PLACES {
        let place = place_of(key, step, places.len());
        if places[place] == FREE {
            places[place] = number;
            return;
        }
    }
}

impl Index {
    /// Takes no memory.
    pub fn new(alloc: Global) -> Index {
        Index {
            alloc,
            places: Vec::new(alloc),
        }
    }

    /// What is in the place of a key after so many steps.
    pub fn at(&self, key: u64, step: usize) -> usize {
        let places = self.places.as_slice();
        if places.is_empty() {
            return FREE;
        }
        places[place_of(key, step, places.len())]
    }

    /// Makes room for one more name than these, so that half of the places are free.
    pub fn reserve(&mut self, names: &[Name]) -> Result<(), AllocError> {
        let count = self.places.len();
        if names.len() < count / 2 {
            return Ok(());
        }
        let mut places = Vec::from_elem(
            self.alloc,
            FREE,
            count.saturating_mul(2).max(FIRST_PLACES),
        )?;
        for i in 0..names.len() {
            put_in(&mut places, names[i].series().hash(), i);
        }
        self.places = places;
        Ok(())
    }

    /// Enters a number.
    pub fn put(&mut self, key: u64, number: usize) {
        put_in(&mut self.places, key, number);
    }
}
