// A second reckoner of the four games, for comparison only. It knows no table and no measure: it works on sets of Spoiler's
// positions, by fixed points one inside the other, and shares no code with the calls it is compared with but `check` and the names of
// the modes of `automaton`.
#![tactic(auto)]

mod fixed; // fixed.rt: the winning set, by nested fixed points
mod round; // round.rt: one round of play on sets, Red's move and Blue's answer
mod rules; // rules.rt: the rules of the modes and the moves, as sets of states

ghost use Rattle.std.specs.Prelude.{◌≡◌, ◌*◌, ◌<◌, length};

use self::rules::{Positions, Rules};
use automaton::{Automaton, Mode, Refusal};

// Writes a byte for each pair of states, 1 if Duplicator wins it: the number of ones. Refusals 1 to 8, and 16.
pub fn relation(
    a: Automaton,
    marks: &[u8],
    moves: &[u8],
    mode: usize,
    out: &mut [u8],
) -> Result<usize, Refusal> {
    automaton::check(a, marks, moves)?;
    let mode = Mode::try_from(mode)?;
    if out.len() != a.states * a.states {
        return Err(Refusal::OutputLength);
    }
    let mut successors = rules::NO_MOVES;
    rules::put_moves(moves, &mut successors);
    let rules = Rules {
        states: a.states,
        letters: a.letters,
        mode,
        accepting: rules::accepting(marks),
        successors: &successors,
    };
    Ok(write(rules, &rules.winning(), out))
}

// Writes the byte of each pair: how many are 1.
fn write(rules: Rules, won: &Positions, out: &mut [u8]) -> usize
    requires states_nonzero { 0 < rules.states }
    requires out_len { length out.old ≡ rules.states * rules.states }
{
    let mut ones = 0;
    for (i, byte) in out.iter_mut().enumerate() {
        let begun = rules.arrivals(won, 0, i / rules.states);
        *byte = u8::from(rules::has(begun, i % rules.states));
        ones += usize::from(*byte);
    }
    ones
}
