//! Reads what the points of sums and histograms share, as `otlp_read` reads it of their JSON.

ghost use Rattle.std.specs.Prelude.{◌≡◌, option_map};
ghost use Rattle.otlp_read.specs.Fields.{flags_fit, nanos_in};
ghost use Rattle.otlp_protobuf.specs.Members.{unsigned_data};

/// A time, if it is there.
#[tactic(auto, unfolding(otlp_read::specs::Fields::nanos_in, otlp_read::specs::Integers::unsigned_in))]
pub fn nanos_in(found: Option<u64>) -> Option<u64>
    ensures { result ≡ nanos_in (option_map unsigned_data found) }
{
    match found {
        Some(nanos) => Some(nanos),
        None => None,
    }
}

/// Whether the lowest flag, "no recorded value", is not set.
#[tactic(auto, unfolding(otlp_read::specs::Fields::flags_fit, otlp_read::specs::Integers::unsigned_in))]
pub fn flags_fit(found: Option<u32>) -> bool
    ensures { result ≡ flags_fit (option_map unsigned_data found) }
{
    match found {
        Some(flags) => flags % 2 == 0,
        None => true,
    }
}
