ghost use Rattle.std.specs.Prelude.{◌≤◌};
ghost use Rattle.gateway_options.specs.declared.command_line.TheConstants.{MAX_SENDERS};
ghost use Rattle.gateway_options.specs.declared.command_line.TheConstants.{MAX_BATCHES};

/// The options of `rehearse`.
#[derive(Clone, Copy, Debug)]
pub struct RehearseOptions {
    /// How many senders post side by side.
    pub senders: u16,
    /// How many batches each of them posts, one after another.
    pub batches: u16,
    ghost some: { (1 ≤ senders) × (senders ≤ MAX_SENDERS) },
    ghost posted: { (1 ≤ batches) × (batches ≤ MAX_BATCHES) },
}
