ghost use Rattle.std.specs.Prelude.{◌≡◌, bytes_eq};

/// Whether two digests are the same. Every byte is compared, however far the others agree, so that the time which this
/// takes doesn't tell how far they do. No proof speaks of that time.
pub fn is_same_digest(a: &[u8; 32], b: &[u8; 32]) -> bool
    ensures { result ≡ bytes_eq a.now b.now }
{
    let mut differing = 0u8;
    for i in 0..32 {
        differing |= a[i] ^ b[i];
    }
    differing == 0
}
