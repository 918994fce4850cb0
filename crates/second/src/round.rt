// One round of play on a set of Spoiler's positions: Red moves, Blue answers by the same letter.
// Duplicator's positions do not occur, so a Duplicator without moves is a Blue without an answer.
ghost use Rattle.std.specs.Prelude.{◌<◌};
ghost use Rattle.automaton.specs.Limits.{most_states};

use super::rules;
use super::rules::{Positions, Rules};
use automaton::{Automaton, Mode};

impl Rules<'_> {
    // The states from which a letter, by its row of successors, leads into the set of states `aim`.
    fn before(self, row: &[u64; Automaton::STATES], aim: u64) -> u64 {
        let mut set = 0;
        for q in 0..self.states {
            if row[q] & aim != 0 {
                set |= 1u64 << q;
            }
        }
        set
    }

    // Blue's states that can answer each of Red's moves from q by one letter, by its row, into the set.
    fn answer_letter(
        self,
        row: &[u64; Automaton::STATES],
        set: &Positions,
        b: usize,
        q: usize,
    ) -> u64
        requires b_in_bounds { b < 2 }
        requires q_in_bounds { q < most_states }
    {
        let reds = row[q];
        let mut able = u64::MAX;
        for r in 0..self.states {
            if rules::has(reds, r) {
                able &= self.before(row, self.arrivals(set, b, r));
            }
        }
        able
    }

    // Blue's states that can answer each of Red's moves from q, into the set.
    fn answer_all(self, set: &Positions, b: usize, q: usize) -> u64
        requires b_in_bounds { b < 2 }
        requires q_in_bounds { q < most_states }
    {
        let successors = self.successors;
        let mut able = u64::MAX;
        for row in &successors[..self.letters] {
            able &= self.answer_letter(row, set, b, q);
        }
        able
    }

    // The positions from which every move of Red has an answer into the set. Only delayed mode has any with b = 1.
    #[inline(always)]
    pub fn answered(self, set: &Positions) -> Positions {
        let layers = if matches!(self.mode, Mode::Delayed) {
            2
        } else {
            1
        };
        let mut out = rules::NONE;
        for b in 0..layers {
            for q in 0..self.states {
                out[b][q] = self.answer_all(set, b, q);
            }
        }
        out
    }
}
