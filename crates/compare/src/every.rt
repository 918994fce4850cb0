// All automata of a size, and many at random, each held against `second` in all four modes.
use super::agree;
use super::draw::{self, Random};
use automaton::Automaton;
use std::io;
use std::ops::Range;

// Tries every set of accepting states with the moves given: how many automata agreed. It ends at the first that does not.
fn all_marks(rt: &impl Print, states: usize, letters: usize, moves: &[u8]) -> io::Result<u64> {
    let a = Automaton {
        states,
        letters,
        start: 0,
    };
    let count = draw::most_states(states);
    let sets = 1u64 << count;
    for number in 0..sets {
        let mut marks = [0u8; draw::STATES];
        draw::spread(number, &mut marks);
        if !agree::agrees(rt, a, &marks[..count], moves)? {
            return Ok(number);
        }
    }
    Ok(sets)
}

// Tries the sets of moves with these numbers, with every set of accepting states: how many automata agreed.
// A set's number has a bit for each move, in their order. It ends at the first set with a difference.
pub fn all_moves(
    rt: &impl Print,
    states: usize,
    letters: usize,
    numbers: Range<u64>,
) -> io::Result<u64> {
    let mut agreed = 0u64;
    for number in numbers {
        let mut present = [0u8; draw::TRIPLES];
        let mut moves = [0u8; draw::BYTES];
        draw::spread(number, &mut present);
        let bytes = draw::moves_of(states, letters, &present, &mut moves);
        let more = all_marks(rt, states, letters, &moves[..bytes])?;
        agreed = agreed.saturating_add(more);
        if more != 1 << draw::most_states(states) {
            return Ok(agreed);
        }
    }
    Ok(agreed)
}

// Tries so many automata of 1 to 8 states and 1 to 4 letters, with few moves, so that many states have none, up to nearly all:
// how many agreed. It ends at the first that does not.
pub fn at_random(rt: &impl Print, seed: u64, count: u64) -> io::Result<u64> {
    let mut random = Random(seed);
    for agreed in 0..count {
        let drawn = random.0;
        let states = 1 + (drawn / 65536 % 8) as usize;
        let letters = 1 + (drawn / 4096 % 4) as usize;
        let share = 1 + drawn / 1048576 % 12;
        let mut present = [0u8; draw::TRIPLES];
        let mut marks = [0u8; draw::STATES];
        let mut moves = [0u8; draw::BYTES];
        random.scatter(share, &mut present, |_| 1);
        random.scatter(8, &mut marks, |_| 1);
        let bytes = draw::moves_of(states, letters, &present, &mut moves);
        let a = Automaton {
            states,
            letters,
            start: 0,
        };
        if !agree::agrees(rt, a, &marks[..states], &moves[..bytes])? {
            return Ok(agreed);
        }
    }
    Ok(count)
}
