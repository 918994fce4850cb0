// The rules of the modes and the moves of an automaton, as sets of states: bit q of a number is 1 if q is in the set.
ghost use Rattle.std.specs.Prelude.{◌≤◌, ◌<◌, length};
ghost use Rattle.automaton.specs.Limits.{most_letters, most_states};
ghost use Rattle.second.specs.Moves.{Within};

use automaton::{Automaton, Mode};

// The moves by their letters and the states they come from: the states they lead to.
pub type Successors = [[u64; Automaton::STATES]; Automaton::LETTERS];

pub const NO_MOVES: Successors = [[0; Automaton::STATES]; Automaton::LETTERS];

// A set of Spoiler's positions (b, q, q') has q' in its row q of layer b.
pub type Positions = [[u64; Automaton::STATES]; 2];

// No position.
pub const NONE: Positions = [[0; Automaton::STATES]; 2];

// An automaton's numbers, the mode, the accepting states, and the moves.
#[derive(Clone, Copy)]
pub struct Rules<'a> {
    pub states: usize,
    pub letters: usize,
    pub mode: Mode,
    pub accepting: u64,
    pub successors: &'a Successors,
    ghost few_states: { states ≤ most_states },
    ghost few_letters: { letters ≤ most_letters },
}

// Blue's states in a row, by what they mean where Duplicator has to win: a good one seen for ever wins, else a bad one
// seen for ever loses. A state in none of the three is lost.
#[derive(Clone, Copy, Default)]
pub struct Kinds {
    pub good: u64,
    pub bad: u64,
    pub other: u64,
}

// Is q in the set?
#[inline]
pub fn has(set: u64, q: usize) -> bool
    requires { q < most_states }
{
    set >> q & 1 == 1
}

// The accepting states.
pub fn accepting(marks: &[u8]) -> u64
    requires { length marks.now ≤ most_states }
{
    let mut set = 0;
    for (q, mark) in marks.iter().enumerate() {
        if *mark == 1 {
            set |= 1u64 << q;
        }
    }
    set
}

// Puts the moves into rows that are empty. They are lent, since a row of rows is long to hand on.
pub fn put_moves(moves: &[u8], rows: &mut Successors)
    requires { Within moves.now }
{
    for i in 0..moves.len() / 3 {
        let at = i * 3;
        let (from, letter, to) = (moves[at], moves[at + 1], moves[at + 2]);
        rows[usize::from(letter)][usize::from(from)] |= 1 << to;
    }
}

impl Rules<'_> {
    // The kinds of the positions (b, q, q') of a row.
    pub fn kinds_in(self, b: usize, q: usize) -> Kinds
        requires { q < most_states }
    {
        let accepting = self.accepting;
        let red = has(accepting, q);
        match self.mode {
            Mode::Ordinary => Kinds {
                other: u64::MAX,
                ..Kinds::default()
            },
            Mode::Direct if red => Kinds {
                other: accepting,
                ..Kinds::default()
            },
            Mode::Direct => Kinds {
                other: u64::MAX,
                ..Kinds::default()
            },
            Mode::Delayed if b == 0 => Kinds {
                good: u64::MAX,
                ..Kinds::default()
            },
            Mode::Delayed => Kinds {
                bad: u64::MAX,
                ..Kinds::default()
            },
            Mode::Fair if red => Kinds {
                good: accepting,
                bad: !accepting,
                other: 0,
            },
            Mode::Fair => Kinds {
                good: accepting,
                bad: 0,
                other: !accepting,
            },
        }
    }

    // Blue's states r' with which a position is in the set where Red has just come to r. In delayed mode b becomes 1 if r accepts, and
    // then 0 if r' does. A pair of states begins as if the two had just come there with b = 0.
    #[inline]
    pub fn arrivals(self, set: &Positions, b: usize, r: usize) -> u64
        requires b_in_bounds { b < 2 }
        requires r_in_bounds { r < most_states }
    {
        if !matches!(self.mode, Mode::Delayed) {
            return set[0][r];
        }
        let accepting = self.accepting;
        let pending = if has(accepting, r) { 1 } else { b };
        (set[0][r] & accepting) | (set[pending][r] & !accepting)
    }
}
