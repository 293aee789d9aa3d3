//! Tests of the edge: readers and writers, and HTTP messages. They run what no clause says: worked
//! bytes, ends that fail, and the counts at which the limits lie.
#![tactic(auto)]

#[cfg(test)]
mod ends;
#[cfg(test)]
mod messages;
