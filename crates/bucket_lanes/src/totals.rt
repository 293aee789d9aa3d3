ghost use Rattle.std.specs.Prelude.{◌≡◌, sum};

/// The sum of all words. It may not fit 64 bits, so it is a scalar loop. Takes no memory.
pub fn total(words: &[u64]) -> u128
    ensures { result ≡ sum words.now }
{
    let mut total = 0u128;
    for word in words {
        total += u128::from(*word);
    }
    total
}
