// What the relation program prints: a line with the number, the place, how many bytes `report` wrote, and the count of the bytes
// that changed and must not have; then the bytes written.
ghost use Rattle.std.specs.Prelude.{◌≤◌};

use super::accepted::EXAMPLE;
use super::tried::{UNWRITTEN, changed};
use std::io;

// The buffer, of which a trial lends a front part: the longest report, and more.
const BUFFER: usize = 4100;

// Reports on a text into as many bytes.
fn try_report(rt: &impl Print, text: &[u8], size: usize) -> io::Result<()>
    requires { size ≤ BUFFER }
{
    let mut out = [UNWRITTEN; BUFFER];
    let (number, place, bytes) = match report::report(text, &mut out[..size]) {
        Ok(bytes) => (0, 0, bytes),
        Err(refusal) => (refusal.number(), refusal.place(), 0),
    };
    print!(rt; "report\t{number}\t{place}\t{bytes}")?;
    let Some(written) = out.get(..bytes) else {
        return println!(rt; "\tmore than the buffer holds");
    };
    println!(rt; "\t{}", changed(&out, bytes))?;
    rt.write_all(written)
}

pub fn run(rt: &impl Print) -> io::Result<()> {
    println!(rt; "reports")?;
    try_report(rt, EXAMPLE, 4095)?;
    try_report(rt, EXAMPLE, 4096)?;
    try_report(rt, EXAMPLE, 4100)?;
    try_report(rt, b"automaton\t2\t1\t0\naccept\t1\naccept\t0\n", 4096)?;
    try_report(rt, b"", 4096)?;
    try_report(rt, b"", 4095)
}
