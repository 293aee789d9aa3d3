use crate::rehearse_options::RehearseOptions;
use crate::serve_options::ServeOptions;

/// A subcommand with its options.
#[derive(Clone, Copy, Debug)]
pub enum Options<'a> {
    /// Serves connections.
    Serve(ServeOptions<'a>),
    /// Plays senders, a gateway and a back end in one process.
    Rehearse(RehearseOptions),
}
