//! The way of a post in protobuf, from its bytes to those that forward it, through one book and
//! through many. No program calls it: what its contracts say is proved from those of the calls.
#![tactic(auto)]

pub mod book;
pub mod books;
