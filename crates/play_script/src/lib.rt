//! Runs a script of commands on a store of one thread and writes the replies.
//!
//! `play` reads the whole input, splits it into lines, makes the reply to each line and writes it,
//! for any source and sink of bytes. Its contract is the definition of a script's run. A line that
//! is no command gets a reply too, so only the reader, the writer and allocations can fail. The
//! program `play` runs it on standard input and output.
#![tactic(auto)]

mod calls;
mod command;
mod fault;
mod flush_text;
mod input;
mod numbers;
mod output;
mod pieces;
mod point_line;
mod points;
mod refusal;
mod reply;
mod script;

pub use fault::PlayFault;
pub use input::MAX_INPUT;
pub use script::play;
