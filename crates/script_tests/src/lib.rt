//! Tests of what a cache of identities shares, of which container of a body is wrong, and of the
//! ends of a script.
#![tactic(auto)]

#[cfg(test)]
mod cache;
#[cfg(test)]
mod places;
#[cfg(test)]
mod scripts;
