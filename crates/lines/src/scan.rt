// Where a byte stands in bytes.
ghost use Rattle.std.specs.Prelude.{◌≡◌, ◌≤◌, ◌<◌, ◌+◌, ◌-◌, length, MatchOption};
ghost use Rattle.lines.specs.Search.{index_of, slice};

use memchr::memchr;

// The place of the first such byte from a place on and before another, if there is one.
pub fn find(bytes: &[u8], from: usize, to: usize, byte: u8) -> Option<usize>
    requires ordered { from ≤ to }
    requires within { to ≤ length bytes.now }
    ensures { MatchOption
        result
        (index_of byte (slice from to bytes.now) ≡ to - from)
        (λ i. (i ≡ from + index_of byte (slice from to bytes.now)) × (i < to)) }
{
    let Some(i) = memchr(byte, &bytes[from..to]) else {
        return None;
    };
    Some(from + i)
}
