//! Readers and writers of bytes. Contracts know which bytes a `Source` has left and which bytes a
//! `Sink` has taken, if the type does; both count the calls that failed. `FromReader` and
//! `ToWriter` wrap readers and writers of the standard library, such as sockets. `Script` and
//! `Tape` are for tests: they follow a list of steps, each of which cuts a call short or fails it.
//! `drain` discards what is left of a source. Nothing here retries, not even a call that a signal
//! interrupted: the caller decides what a failure means.
#![tactic(auto)]

mod draining;
mod failed;
mod from_reader;
mod script;
mod sink;
mod source;
mod step;
mod tape;
mod to_writer;

pub use draining::drain;
pub use failed::Failed;
pub use from_reader::FromReader;
pub use script::Script;
pub use sink::Sink;
pub use source::Source;
pub use step::Step;
pub use tape::Tape;
pub use to_writer::ToWriter;
