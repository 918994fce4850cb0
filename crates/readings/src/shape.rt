// Texts that are too long, or of wrong form or order: refusals 22 and 20, the place of which is the line.
use super::tried::try_roomy;
use std::io;

// A text of one byte more than document 01 allows, and the same without that byte, which is of wrong form.
fn too_long(rt: &impl Print) -> io::Result<()> {
    let text = [b'\n'; 32769];
    try_roomy(rt, &text[..])?;
    try_roomy(rt, &text[..32768])
}

// Whole lines.
fn lines(rt: &impl Print) -> io::Result<()> {
    try_roomy(rt, b"")?; // no line
    try_roomy(rt, b"\n")?; // an empty line
    try_roomy(rt, b"automaton\t2\t1\t0\nmove\t0\t0\t1\n\n")?; // an empty line at the end
    try_roomy(rt, b"automaton\t2\t1\t0")?; // no newline
    try_roomy(rt, b"automaton\t2\t1\t0\nmode\t2")?; // no newline at the end
    try_roomy(rt, b"automaton\t2\t1\t0\r\n")?; // a carriage return
    try_roomy(rt, b"automata\t2\t1\t0\n")?; // another word
    try_roomy(rt, b"automaton\t2\t1\t0\nmov\t0\t0\t1\n") // a word cut short
}

fn fields(rt: &impl Print) -> io::Result<()> {
    try_roomy(rt, b"automaton 2 1 0\n")?; // parted by spaces
    try_roomy(rt, b"automaton\t2\t01\t0\n")?; // a leading zero
    try_roomy(rt, b"automaton\t2\t1\t65536\n")?; // a number above 65535
    try_roomy(rt, b"automaton\t2\t1/\t0\n")?; // the byte before the digits
    try_roomy(rt, b"automaton\t2\t:\t0\n")?; // the byte after them
    try_roomy(rt, b"automaton\t2\t\t0\n")?; // an empty field
    try_roomy(rt, b"automaton\t2\t1\n")?; // a field missing
    try_roomy(rt, b"automaton\t2\t1\t0\t0\n")?; // a field too many
    try_roomy(rt, b"automaton\t2\t1\t0\nmode\t2\t2\n")?;
    try_roomy(rt, b"automaton\t2\t1\t0\naccept\n")?;
    try_roomy(rt, b"automaton\t2\t1\t0\nmove\t0\t0\n")?;
    try_roomy(rt, b"automaton\t2\t1\t0\nmove\t0\t0\t1\t1\n")
}

fn order(rt: &impl Print) -> io::Result<()> {
    try_roomy(rt, b"mode\t2\nautomaton\t2\t1\t0\n")?; // another line first
    try_roomy(rt, b"automaton\t2\t1\t0\nautomaton\t2\t1\t0\n")?; // the first line again
    try_roomy(rt, b"automaton\t2\t1\t0\nmode\t2\nmode\t2\n")?; // a second mode
    try_roomy(rt, b"automaton\t2\t1\t0\naccept\t1\nmode\t2\n")?; // mode after accept
    try_roomy(rt, b"automaton\t2\t1\t0\nmove\t0\t0\t1\nmode\t2\n")?; // mode after move
    try_roomy(rt, b"automaton\t2\t1\t0\nmove\t0\t0\t1\naccept\t1\n")?; // accept after move
    try_roomy(rt, b"automaton\t0\t1\t0\nmove\t0\t0\t0\nmode\t2\n") // behind a 1
}

pub fn run(rt: &impl Print) -> io::Result<()> {
    println!(rt; "22, and 20 at the limit")?;
    too_long(rt)?;
    println!(rt; "20: lines")?;
    lines(rt)?;
    println!(rt; "20: fields")?;
    fields(rt)?;
    println!(rt; "20: order")?;
    order(rt)
}
