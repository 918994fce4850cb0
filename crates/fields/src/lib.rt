// The fields of a text: numbers in decimal, read from bytes, and numbers and words put into a lent buffer.
// Putting ends where the buffer does: nothing is written past it.
#![tactic(auto)]

ghost use Rattle.std.specs.Prelude.{◌≡◌, [], ◌∷◌};
ghost use Rattle.fields.specs.Bytes.{laid, stop};
ghost use Rattle.fields.specs.Numbers.{number_of, shown};

// What parts fields, and what ends a line.
pub const TAB: u8 = b'\t';

pub const NEWLINE: u8 = b'\n';

// The largest number read.
const LARGEST: usize = 65535;

// The number that a field says: decimal digits, no leading zero, none above the largest.
#[tactic(auto, unfolding(crate::specs::Numbers::number_of))]
pub fn read_number(field: &[u8]) -> Option<usize>
    ensures { result ≡ number_of field.now }
{
    if field.is_empty() {
        return None;
    }
    if field.len() > 1 && field[0] == b'0' {
        return None;
    }
    let mut v: usize = 0;
    for &byte in field {
        if byte < b'0' || byte > b'9' {
            return None;
        }
        v = v * 10 + usize::from(byte - b'0');
        if v > LARGEST {
            return None;
        }
    }
    Some(v)
}

// Puts a byte at a place, if the buffer reaches so far: the place past it.
pub fn put(out: &mut [u8], at: usize, byte: u8) -> usize
    ensures value { result ≡ stop at (byte ∷ []) out.old }
    ensures out_after { out.new ≡ laid at (byte ∷ []) out.old }
{
    if at < out.len() {
        out[at] = byte;
        return at + 1;
    }
    at
}

// Puts bytes one after another: the place past them.
pub fn put_bytes(out: &mut [u8], at: usize, bytes: &[u8]) -> usize
    ensures value { result ≡ stop at bytes.now out.old }
    ensures out_after { out.new ≡ laid at bytes.now out.old }
{
    let mut to = at;
    for &byte in bytes {
        to = put(out, to, byte);
    }
    to
}

// Puts a number in decimal: the place past it.
pub fn put_number(out: &mut [u8], at: usize, v: usize) -> usize
    ensures value { result ≡ stop at (shown v) out.old }
    ensures out_after { out.new ≡ laid at (shown v) out.old }
{
    if v < 10 {
        return put(out, at, b'0' + v as u8);
    }
    let past = put_number(out, at, v / 10);
    put(out, past, b'0' + (v % 10) as u8)
}
