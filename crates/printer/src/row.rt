// One line put into a buffer: a word and numbers, parted by tabs, and a newline.
ghost use Rattle.std.specs.Prelude.{◌≡◌};
ghost use Rattle.fields.specs.Bytes.{laid, stop};
ghost use Rattle.printer.specs.Printed.{line};

// Puts a line: the place past it.
pub fn put(out: &mut [u8], at: usize, word: &[u8], values: &[usize]) -> usize
    ensures value { result ≡ stop at (line word.now values.now) out.old }
    ensures out_after { out.new ≡ laid at (line word.now values.now) out.old }
{
    let mut to = fields::put_bytes(out, at, word);
    for &value in values {
        let past = fields::put(out, to, fields::TAB);
        to = fields::put_number(out, past, value);
    }
    fields::put(out, to, fields::NEWLINE)
}
