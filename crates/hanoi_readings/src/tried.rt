// One file read: a line with the number and the place of a refusal; or with the states, the letters, the start and the count of the
// moves, and a line with the marks and the moves. A line ends in `changed` where bytes are written that must not be.
ghost use Rattle.std.specs.Prelude.{◌≤◌};

use automaton::{Automaton, Refusal};
use hanoi::{Limits, Reading};
use std::{fmt, io};

// What the buffers hold before a call.
const UNWRITTEN: u8 = 170;

// The buffers, of which a trial lends a front part.
const MARKS: usize = 20;

const MOVES: usize = 192;

// The limits of the programs.
pub const PROGRAM: Limits = Limits {
    bytes: text::BYTES,
    states: text::STATES,
    letters: text::LETTERS,
};

// The limits of the library.
pub const LIBRARY: Limits = Limits {
    bytes: text::BYTES,
    states: Automaton::STATES,
    letters: Automaton::LETTERS,
};

// Whether a buffer is as it was before the call, from a place on.
fn unwritten(bytes: &[u8], from: usize) -> bool {
    bytes
        .get(from..)
        .is_some_and(|rest| rest.iter().all(|byte| *byte == UNWRITTEN))
}

// Bytes as numbers, each behind a tab.
#[derive(Clone, Copy)]
struct Row<'a>(&'a [u8]);

impl fmt::Display for Row<'_> {
    fn fmt<W: fmt::Write>(&self, f: &mut fmt::Formatter<W>) -> fmt::Result {
        for byte in self.0 {
            write!(f, "\t{byte}")?;
        }
        Ok(())
    }
}

// How a line ends: with `changed` where it must.
fn ending(kept: bool) -> &'static str {
    if kept { "" } else { "\tchanged" }
}

// Prints a file that was read: a mark a state and three bytes a move are written, and nothing past them.
fn held(rt: &impl Print, read: Reading, marks: &[u8], moves: &[u8]) -> io::Result<()> {
    let Reading {
        automaton,
        moves: count,
    } = read;
    let Automaton {
        states,
        letters,
        start,
    } = automaton;
    print!(rt; "held\t{states}\t{letters}\t{start}\t{count}")?;
    if marks.len() < states || moves.len() / 3 < count {
        return println!(rt; "\tmore than the buffers hold");
    }
    let bytes = count * 3;
    let kept = unwritten(marks, states) && unwritten(moves, bytes);
    println!(rt; "{}", ending(kept))?;
    println!(rt;
        "marks{}\tmoves{}",
        Row(&marks[..states]),
        Row(&moves[..bytes])
    )
}

// Reads a file within limits into as many bytes for the marks and for the moves.
pub fn try_file(
    rt: &impl Print,
    text: &[u8],
    limits: Limits,
    marks: usize,
    moves: usize,
) -> io::Result<()>
    requires marks_bound { marks ≤ MARKS }
    requires moves_bound { moves ≤ MOVES }
{
    let mut markbytes = [UNWRITTEN; MARKS];
    let mut movebytes = [UNWRITTEN; MOVES];
    match hanoi::read(
        text,
        limits,
        &mut markbytes[..marks],
        &mut movebytes[..moves],
    ) {
        Ok(read) => held(rt, read, &markbytes, &movebytes),
        Err(refusal) => {
            let kept = unwritten(&markbytes, 0) && unwritten(&movebytes, 0);
            println!(rt;
                "refused\t{}\t{}{}",
                refusal.number(),
                refusal.place(),
                ending(kept)
            )
        }
    }
}

// Reads a file within limits into the whole buffers.
pub fn try_whole(rt: &impl Print, text: &[u8], limits: Limits) -> io::Result<()> {
    try_file(rt, text, limits, MARKS, MOVES)
}

// Reads a file within the limits of the programs.
pub fn try_program(rt: &impl Print, text: &[u8]) -> io::Result<()> {
    try_whole(rt, text, PROGRAM)
}

// Whether a file is refused with 23 or 24 at a place no further than its length, and nothing is written.
pub fn refused_within(text: &[u8]) -> bool {
    let mut marks = [UNWRITTEN; MARKS];
    let mut moves = [UNWRITTEN; MOVES];
    match hanoi::read(text, PROGRAM, &mut marks, &mut moves) {
        Err(Refusal::Foreign(place) | Refusal::TooDeep(place)) => {
            place <= text.len() && unwritten(&marks, 0) && unwritten(&moves, 0)
        }
        _ => false,
    }
}
