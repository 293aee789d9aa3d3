//! Runs of attributes: the fields of a point's attributes as they stand in its bytes, one after the
//! other.

ghost use Rattle.std.specs.Prelude.{◌≡◌, ◌≤◌, ◌<◌, ◌/◌, ◌%◌, ◌*◌, ◌+◌, ◌++◌, IfSome};
ghost use Rattle.otlp_protobuf.specs.inner.Runs.{IsAttribute, IsRun};

/// How many bytes the field of an attribute at the front has, by the key of attributes. `None` if
/// there is none, or its key or its size has more bytes than encoders write.
#[inline(always)]
fn attribute_size(key: u8, bytes: &[u8]) -> Option<usize>
    requires known { 8 ≤ key }
    requires short { key < 128 }
    requires content { key % 8 ≡ 2 }
    ensures { IfSome result (λ n. IsAttribute (key / 8) n bytes.now) }
{
    if let [first, size, rest @ ..] = bytes
        && *first == key
        && *size < 128
        && usize::from(*size) <= rest.len()
    {
        return Some(usize::from(*size) + 2);
    }
    if let [first, low, high, rest @ ..] = bytes
        && *first == key
        && *low >= 128
        && *high < 128
        && long_size(*low, *high) <= rest.len()
    {
        return Some(long_size(*low, *high) + 3);
    }
    None
}

/// A size of two bytes.
fn long_size(low: u8, high: u8) -> usize
    requires { high < 128 }
    ensures { result ≡ low % 128 + high * 128 }
{
    usize::from(low % 128) + usize::from(high) * 128
}

/// How many bytes the attributes at the front have, and how many there are.
pub fn run_at(key: u8, bytes: &[u8]) -> (usize, usize)
    requires known { 8 ≤ key }
    requires short { key < 128 }
    requires content { key % 8 ≡ 2 }
    ensures { IsRun (key / 8) result.0 result.1 bytes.now }
{
    let mut size = 0;
    let mut count = 0;
    while let Some(more) = attribute_size(key, &bytes[size..]) {
        size += more;
        count += 1;
    }
    (size, count)
}

/// The bytes after a run.
#[inline(always)]
pub fn after_run<'a>(run: &[u8], bytes: &'a [u8]) -> Option<&'a [u8]>
    ensures { IfSome result (λ after. bytes.now ≡ run.now ++ after.now) }
{
    if run.len() > bytes.len() {
        return None;
    }
    let (front, after) = bytes.split_at(run.len());
    if front == run { Some(after) } else { None }
}
