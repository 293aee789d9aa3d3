//! A law: bytes ask for one thing at most.
ghost use Rattle.std.specs.Prelude.{◌≡◌, List, ℕ};
ghost use Rattle.gate_workers.specs.Requested.{Requested};
ghost use Rattle.gate_workers.specs.Asks.{Asks};

/// Bytes ask for one thing at most.
pub fn one_request()
    ensures { (bytes : List ℕ) (a b : Requested) → Asks bytes a → Asks bytes b → a ≡ b }
{}
