// Bytes and numbers at a position of a slice.
ghost use Rattle.std.specs.Prelude.{◌≡◌, ◌+◌, ◌≤◌, ◌<◌, length, get_or, take, drop};
ghost use Rattle.plan.specs.Layout.{value};

// How many bytes are left from a position on.
pub fn left_of(s: &[u8], at: usize) -> usize
    ensures { result ≡ length (drop at s.now) }
{
    if at < s.len() {
        return s.len() - at;
    }
    0
}

// The byte at a position.
pub fn byte_at(s: &[u8], at: usize) -> u64
    requires { at < length s.now }
    ensures is { result ≡ get_or s.now at 0 }
    ensures below { result < 256 }
{
    s[at] as u64
}

// The number in `width` bytes from a position on, the lowest byte first.
pub fn number_at(s: &[u8], at: usize, width: usize) -> u64
    requires { (width ≤ 8) × (at + width ≤ length s.now) }
    ensures { result ≡ value (take width (drop at s.now)) }
{
    let mut sum = 0;
    // `sum` is the number in the bytes taken so far, which are the last ones.
    for byte in s[at..at + width].iter().rev() {
        sum = u64::from(*byte) + 256 * sum;
    }
    sum
}
