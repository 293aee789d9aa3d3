//! Tests of the store: what no contract says of identities, of the room of cells and of who shares
//! what with the book.
#![tactic(auto)]

#[cfg(test)]
mod bodies;
#[cfg(test)]
mod book;
#[cfg(test)]
mod identities;
#[cfg(test)]
mod look;
#[cfg(test)]
mod rooms;
