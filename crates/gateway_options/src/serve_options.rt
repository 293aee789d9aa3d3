ghost use Rattle.std.specs.Prelude.{◌≤◌, length};
ghost use Rattle.gateway_options.specs.declared.command_line.TheConstants.{MAX_BACKEND};
ghost use Rattle.gateway_options.specs.declared.command_line.TheConstants.{MAX_FLUSH_SERIES};
ghost use Rattle.gateway_options.specs.declared.command_line.TheConstants.{MAX_FLUSHERS};
ghost use Rattle.gateway_options.specs.declared.command_line.TheConstants.{MAX_RECEIVERS};
ghost use Rattle.gateway_options.specs.declared.command_line.TheConstants.{MAX_ROUND};

/// The options of `serve`.
#[derive(Clone, Copy, Debug)]
pub struct ServeOptions<'a> {
    /// The address of the back end, `HOST:PORT`, as it is passed to the system.
    pub backend: &'a str,
    /// The address to listen on, `HOST:PORT`, as it is passed to the system.
    pub listen: &'a str,
    /// How many connections are served before the gateway ends.
    pub connections: u64,
    /// How many threads serve connections.
    pub receivers: u16,
    /// How many threads run the flushes that are ordered.
    pub flushers: u16,
    /// The most series of one flush.
    pub flush_series: usize,
    /// How many connections a round of the store has.
    pub round: u64,
    ghost short: { length backend.now ≤ MAX_BACKEND },
    ghost received: { (1 ≤ receivers) × (receivers ≤ MAX_RECEIVERS) },
    ghost flushed: { (1 ≤ flushers) × (flushers ≤ MAX_FLUSHERS) },
    ghost few: { (1 ≤ flush_series) × (flush_series ≤ MAX_FLUSH_SERIES) },
    ghost rounded: { (1 ≤ round) × (round ≤ MAX_ROUND) },
}
