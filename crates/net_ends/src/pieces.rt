//! Parts of slices.
ghost use Rattle.std.specs.Prelude.{◌≡◌, ◌≤◌, ◌+◌, min, drop, take, length};

/// What stands behind the first bytes.
pub fn rest_of(bytes: &[u8], at: usize) -> &[u8]
    requires { at ≤ length bytes.now }
    ensures { result.now ≡ drop at bytes.now }
{
    &bytes[at..]
}

/// The first bytes, one more than the limit at most.
pub fn front_of(bytes: &[u8], limit: usize) -> &[u8]
    ensures { result.now ≡ take (limit + 1) bytes.now }
{
    if bytes.len() <= limit {
        return bytes;
    }
    &bytes[..limit + 1]
}

/// Copies as much as there is room for to the front of a buffer, and answers how many bytes those are.
pub fn copy_front(into: &mut [u8], from: &[u8]) -> usize
    ensures count { result ≡ min (length from.now) (length into.old) }
    ensures front { take result into.new ≡ take result from.now }
{
    let n = from.len().min(into.len());
    into[..n].copy_from_slice(&from[..n]);
    n
}
