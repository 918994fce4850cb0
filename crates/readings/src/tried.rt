// One text read: a line with the number and the place that `read` gave, the values of an accepted text, and the count of the bytes
// that changed and must not have; for an accepted text also a line with the marks and the moves.
ghost use Rattle.std.specs.Prelude.{◌≤◌, length};

use automaton::Automaton;
use std::{fmt, io};
use text::Reading;

// What the buffers hold before a call.
pub const UNWRITTEN: u8 = 170;

// The buffers, of which a trial lends a front part: room for the limits of the programs, and more.
const MARKS: usize = 20;

const MOVES: usize = 60;

// How many of the bytes from a place on are written.
pub fn changed(bytes: &[u8], from: usize) -> usize
    ensures { result ≤ length bytes.now }
{
    bytes
        .iter()
        .skip(from)
        .filter(|byte| **byte != UNWRITTEN)
        .count()
}

// Bytes as numbers, each behind a tab.
#[derive(Clone, Copy)]
struct Row<'a>(&'a [u8]);

impl fmt::Display for Row<'_> {
    fn fmt<W: fmt::Write>(&self, f: &mut fmt::Formatter<W>) -> fmt::Result {
        for byte in self.0 {
            write!(f, "\t{byte}")?;
        }
        Ok(())
    }
}

// Prints an accepted text: a mark a state and three bytes a move are written, and nothing past them.
fn held(rt: &impl Print, read: Reading, marks: &[u8], moves: &[u8]) -> io::Result<()> {
    let Reading {
        automaton,
        mode,
        moves: count,
    } = read;
    let Automaton {
        states,
        letters,
        start,
    } = automaton;
    print!(rt; "read\t0\t0\t{states}\t{letters}\t{start}\t{mode}\t{count}")?;
    if marks.len() < states || moves.len() / 3 < count {
        return println!(rt; "\tmore than the buffers hold");
    }
    let bytes = count * 3;
    println!(rt; "\t{}", changed(marks, states) + changed(moves, bytes))?;
    println!(rt;
        "marks{}\tmoves{}",
        Row(&marks[..states]),
        Row(&moves[..bytes])
    )
}

// Reads a text into as many bytes for the marks and for the moves.
pub fn try_text(rt: &impl Print, text: &[u8], marks: usize, moves: usize) -> io::Result<()>
    requires marks_bound { marks ≤ MARKS }
    requires moves_bound { moves ≤ MOVES }
{
    let mut markbytes = [UNWRITTEN; MARKS];
    let mut movebytes = [UNWRITTEN; MOVES];
    match text::read(text, &mut markbytes[..marks], &mut movebytes[..moves]) {
        Ok(read) => held(rt, read, &markbytes, &movebytes),
        Err(refusal) => {
            let changed = changed(&markbytes, 0) + changed(&movebytes, 0);
            println!(rt;
                "read\t{}\t{}\t{changed}",
                refusal.number(),
                refusal.place()
            )
        }
    }
}

// Reads a text into the whole buffers.
pub fn try_roomy(rt: &impl Print, text: &[u8]) -> io::Result<()> {
    try_text(rt, text, MARKS, MOVES)
}
