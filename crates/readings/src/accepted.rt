// Texts that are read.
use super::tried::{try_roomy, try_text};
use std::io;

// Document 01's example.
pub const EXAMPLE: &[u8] =
    b"automaton\t2\t1\t0\nmode\t2\naccept\t1\nmove\t0\t0\t1\nmove\t1\t0\t0\n";

// The example in buffers that it fills, and in longer ones.
fn example(rt: &impl Print) -> io::Result<()> {
    try_text(rt, EXAMPLE, 2, 6)?;
    try_text(rt, EXAMPLE, 3, 8)?;
    try_roomy(rt, EXAMPLE)
}

fn others(rt: &impl Print) -> io::Result<()> {
    try_text(rt, b"automaton\t2\t1\t1\naccept\t0\nmove\t0\t0\t0\n", 2, 3)?; // no mode
    try_text(rt, b"automaton\t1\t1\t0\n", 1, 0)?; // no accept, no move
    try_roomy(rt, b"automaton\t1\t1\t0\nmode\t0\n")?;
    // at the limits of the programs
    try_text(
        rt,
        b"automaton\t16\t8\t15\nmode\t3\naccept\t0\naccept\t15\nmove\t15\t7\t15\n",
        16,
        3,
    )
}

pub fn run(rt: &impl Print) -> io::Result<()> {
    println!(rt; "accepted")?;
    example(rt)?;
    others(rt)
}
