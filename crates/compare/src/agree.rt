// One automaton, its relation reckoned both ways.
ghost use Rattle.std.specs.Prelude.{◌≤◌};

use super::draw;
use super::text::Shown;
use arena::Job;
use automaton::{Automaton, Refusal};
use std::io;

// The entries and the pairs of the largest automata drawn.
pub const ENTRIES: usize = 2 * draw::STATES * draw::STATES * (1 + draw::LETTERS);

pub const PAIRS: usize = draw::STATES * draw::STATES;

// The entries of a table for the automaton; none if it is too large to be drawn.
pub fn size_of(a: Automaton, mode: usize) -> usize
    ensures { result ≤ 640 }
{
    match arena::positions(a, mode) {
        Ok(size) if size <= ENTRIES => size,
        _ => 0,
    }
}

// The pairs of states of the automaton; none if it is too large to be drawn.
pub fn pairs_of(a: Automaton) -> usize
    ensures { result ≤ 64 }
{
    if a.states <= draw::STATES {
        a.states * a.states
    } else {
        0
    }
}

// Is the relation that is read off the settled table the one that `second` reckons?
fn compared(job: &Job) -> Result<bool, Refusal> {
    let a = job.automaton;
    let size = size_of(a, job.mode);
    let pairs = pairs_of(a);
    let mut entries = [0u32; ENTRIES];
    let mut first = [0u8; PAIRS];
    let mut other = [0u8; PAIRS];
    table::settle(job, &mut entries[..size])?;
    let ones = relation::relation(job, &entries[..size], &mut first[..pairs])?;
    let others = second::relation(a, job.marks, job.moves, job.mode, &mut other[..pairs])?;
    Ok(ones == others && first == other)
}

// Does the relation agree with `second`'s in all four modes? If it does not, or a call refuses, says where, with the automaton.
pub fn agrees<'a>(
    rt: &impl Print,
    automaton: Automaton,
    marks: &'a [u8],
    moves: &'a [u8],
) -> io::Result<bool> {
    for mode in 0..4 {
        let job = Job {
            automaton,
            marks,
            moves,
            mode,
        };
        match compared(&job) {
            Ok(true) => continue,
            Ok(false) => println!(rt; "the relations differ")?,
            Err(refusal) => println!(rt; "refused\t{}", refusal.number())?,
        }
        print!(rt; "{}", Shown(&job))?;
        return Ok(false);
    }
    Ok(true)
}
