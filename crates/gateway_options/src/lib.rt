//! Reads the command line of `gateway` by `clap`.
#![tactic(auto)]

mod command_line;
mod line_fault;
mod number_option;
mod rehearse_options;
mod serve_options;
mod subcommand;

pub use command_line::{
    MAX_BACKEND, MAX_BATCHES, MAX_CONNECTIONS, MAX_FLUSH_SERIES, MAX_FLUSHERS, MAX_RECEIVERS,
    MAX_ROUND, MAX_SENDERS, options,
};
pub use line_fault::LineFault;
pub use rehearse_options::RehearseOptions;
pub use serve_options::ServeOptions;
pub use subcommand::Options;
