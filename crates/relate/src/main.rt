// The relation program: reads a text from standard input, and prints its relation, or why it is refused.
#![tactic(auto)]

use std::io;

// One byte more than a text may have, so that a longer one is seen to be longer.
const BYTES: usize = text::BYTES + 1;

fn main(rt: HostRuntime) -> io::Result<()> {
    let mut text = [0u8; BYTES];
    let count = report::fill(&mut rt.reader(), &mut text[..])?;
    let mut out = [0u8; report::LONGEST];
    let bytes = report::report(&text[..count], &mut out[..]).unwrap();
    rt.write_all(&out[..bytes])
}
