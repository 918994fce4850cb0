// What the two relation programs print for an automaton given both ways: a line with the numbers of bytes that `report` wrote for
// the Hanoi file and for the text, and whether the buffers are the same; then the bytes for the file.
use super::writers::{HAND, SPOT};
use std::io;

// Reports on a file and on a text.
fn try_both(rt: &impl Print, file: &[u8], text: &[u8]) -> io::Result<()> {
    let mut ours = [0u8; report::LONGEST];
    let mut theirs = [0u8; report::LONGEST];
    // no bytes if the buffer was too short
    let by_file = hanoi_report::report(file, &mut ours).unwrap_or(0);
    let by_text = report::report(text, &mut theirs).unwrap_or(0);
    let compared = if ours == theirs {
        "the same"
    } else {
        "different"
    };
    println!(rt; "report\t{by_file}\t{by_text}\t{compared}")?;
    rt.write_all(ours.get(..by_file).unwrap_or(&[]))
}

// The automaton of the file `SPOT`.
fn spot(rt: &impl Print) -> io::Result<()> {
    try_both(
        rt,
        SPOT,
        b"automaton\t2\t4\t0
mode\t2
accept\t0
move\t0\t0\t0
move\t0\t1\t1
move\t0\t2\t0
move\t0\t3\t0
move\t1\t0\t1
move\t1\t1\t1
move\t1\t2\t0
move\t1\t3\t0
",
    )
}

// The automaton of the file `HAND`.
fn hand(rt: &impl Print) -> io::Result<()> {
    try_both(
        rt,
        HAND,
        b"automaton\t3\t8\t1
mode\t2
accept\t1
move\t1\t0\t1
move\t1\t0\t2
move\t1\t1\t1
move\t1\t2\t1
move\t1\t2\t2
move\t1\t3\t1
move\t1\t4\t1
move\t1\t4\t2
move\t1\t5\t1
move\t1\t6\t1
move\t1\t6\t2
move\t1\t7\t1
move\t1\t7\t2
move\t2\t1\t0
move\t2\t2\t0
move\t2\t3\t0
move\t2\t5\t0
move\t2\t6\t0
move\t2\t7\t0
",
    )
}

// A buffer a byte shorter than the longest report.
fn too_short(rt: &impl Print) -> io::Result<()> {
    let mut out = [0u8; report::LONGEST - 1];
    match hanoi_report::report(SPOT, &mut out) {
        Ok(bytes) => println!(rt; "\t{bytes}"),
        Err(refusal) => println!(rt; "refused\t{}", refusal.number()),
    }
}

pub fn run(rt: &impl Print) -> io::Result<()> {
    println!(rt; "reports")?;
    spot(rt)?;
    hand(rt)?;
    try_both(rt, b"", b"")?; // refused with 23 and with 20
    too_short(rt)
}
