// The second relation program: reads a Hanoi file from standard input, and prints its delayed relation, or why it is refused.
#![tactic(auto)]

use std::io;

// One byte more than a file may have, so that a longer one is seen to be longer.
const BYTES: usize = text::BYTES + 1;

fn main(rt: HostRuntime) -> io::Result<()> {
    let mut file = [0u8; BYTES];
    let count = report::fill(&mut rt.reader(), &mut file[..])?;
    let mut out = [0u8; report::LONGEST];
    let bytes = hanoi_report::report(&file[..count], &mut out[..]).unwrap();
    rt.write_all(&out[..bytes])
}
