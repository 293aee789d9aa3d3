//! Tests of a book that threads share: seats in their own threads, and workers that overlap. They
//! test what no contract says: that calls succeed with ample memory, that the lock is free while a
//! flush is sent, and that orders are answered.
#![tactic(auto)]

#[cfg(test)]
mod bodies;
#[cfg(test)]
mod fixed;
#[cfg(test)]
mod pair;
#[cfg(test)]
mod pause;
#[cfg(test)]
mod posts;
#[cfg(test)]
mod seats;
#[cfg(test)]
mod workers;
