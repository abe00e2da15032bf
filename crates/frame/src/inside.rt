// Words that lie whole inside a slice of bytes: the walk has tested that, so there is no second test here. book's total functions answer the same,
// and would test the end at every word (bench/README.md). These have a `requires`, so they stay in the crate.
ghost use Rattle.std.specs.Prelude.{◌≡◌, ◌+◌, ◌*◌, ◌≤◌, length};
ghost use Rattle.format.specs.Words.{word_at, long_at, time_at};

// The word at index i.
pub(crate) fn word(s: &[u8], i: usize) -> u16
    requires { 2 * (i + 1) ≤ length s.now }
    ensures { result ≡ word_at s.now i }
{
    u16::from_le_bytes([s[2 * i], s[2 * i + 1]])
}

// The number of 32 bits whose low word stands at index i.
pub(crate) fn long(s: &[u8], i: usize) -> u32
    requires { 2 * (i + 2) ≤ length s.now }
    ensures { result ≡ long_at s.now i }
{
    u32::from_le_bytes([s[2 * i], s[2 * i + 1], s[2 * i + 2], s[2 * i + 3]])
}

// The number of 48 bits whose low word stands at index i.
pub(crate) fn time(s: &[u8], i: usize) -> u64
    requires { 2 * (i + 3) ≤ length s.now }
    ensures { result ≡ time_at s.now i }
{
    let low = long(s, i) as u64;
    let high = word(s, i + 2) as u64;
    low + 4294967296 * high
}
