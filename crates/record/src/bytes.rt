// Bytes: numbers in them, zeros, bytes compared, and bytes put in the place of others.
ghost use Rattle.std.specs.Prelude.{◌≡◌, ◌+◌, ◌≤◌, length, take, drop, replicate};
ghost use Rattle.units.specs.Lists.{all, is_zero, same_numbers};
ghost use Rattle.record.specs.Codec.{to_bytes, from_bytes, replaced};

// The number in the four bytes of s from at on.
pub fn read_u32(s: &[u8], at: usize) -> u32
    requires { at + 4 ≤ length s.now }
    ensures { result ≡ from_bytes (take 4 (drop at s.now)) }
{
    u32::from_le_bytes([s[at], s[at + 1], s[at + 2], s[at + 3]])
}

// The four bytes of a number.
pub fn u32_bytes(n: u32) -> [u8; 4]
    ensures { result ≡ to_bytes 4 n }
{
    n.to_le_bytes()
}

// Whether every byte of s is zero: the highest is. No all, which would stop at the first that isn't: so many bytes are taken at once.
pub fn zeros(s: &[u8]) -> bool
    ensures { result ≡ all is_zero s.now }
{
    s.iter().fold(0, |highest: u8, b| highest.max(*b)) == 0
}

// Whether a and b are the same bytes.
pub fn same(a: &[u8], b: &[u8]) -> bool
    ensures { result ≡ same_numbers a.now b.now }
{
    a == b
}

// The bytes of src go into dst from at on.
pub fn put(dst: &mut [u8], at: usize, src: &[u8])
    requires { at + length src.now ≤ length dst.old }
    ensures { dst.new ≡ replaced at src.now dst.old }
{
    dst[at..at + src.len()].copy_from_slice(src);
}

// Zeros go where so many bytes of dst from at on were.
pub fn clear(dst: &mut [u8], at: usize, count: usize)
    requires { at + count ≤ length dst.old }
    ensures { dst.new ≡ replaced at (replicate count 0) dst.old }
{
    dst[at..at + count].fill(0);
}
