// The winning set: the greatest X, of the least Y, of the greatest Z, of the positions from which one round leads a good
// position into X, a bad one into Y and any other into Z.
use super::rules;
use super::rules::{Positions, Rules};
use automaton::{Automaton, Mode};

// A fixed point is reached before each bit of a set has changed once, and the round after it changes nothing.
const ROUNDS: usize = 2 * Automaton::STATES * Automaton::STATES + 1;

impl Rules<'_> {
    // Have the sets the same rows, of those in use?
    fn same(self, x: &Positions, y: &Positions) -> bool {
        let states = self.states;
        x[0][..states] == y[0][..states] && x[1][..states] == y[1][..states]
    }

    // Steps on until nothing changes, from the set with these rows: the fixed point.
    fn fixed_point<F: Fn(&Positions) -> Positions>(self, row: u64, step: F) -> Positions
        requires { F.IsAlwaysCallable step }
    {
        let mut set = [[row; Automaton::STATES]; 2];
        for _ in 0..ROUNDS {
            let stepped = step(&set);
            if self.same(&set, &stepped) {
                return set;
            }
            set = stepped;
        }
        set
    }

    // The good positions of x, the bad ones of y and the others of z.
    fn joined(self, x: &Positions, y: &Positions, z: &Positions) -> Positions {
        let mut out = rules::NONE;
        for b in 0..2 {
            for q in 0..self.states {
                let kinds = self.kinds_in(b, q);
                out[b][q] = (x[b][q] & kinds.good)
                    | (y[b][q] & kinds.bad)
                    | (z[b][q] & kinds.other);
            }
        }
        out
    }

    // The greatest Z, where x and y are a round into X and into Y.
    fn inner(self, x: &Positions, y: &Positions) -> Positions {
        self.fixed_point(u64::MAX, |z| self.joined(x, y, &self.answered(z)))
    }

    // The least Y, where x is a round into X.
    fn middle(self, x: &Positions) -> Positions {
        self.fixed_point(0, |y| self.inner(x, &self.answered(y)))
    }

    // The greatest X.
    fn outer(self) -> Positions {
        self.fixed_point(u64::MAX, |x| self.middle(&self.answered(x)))
    }

    // The positions that Duplicator wins. Ordinary and direct mode have no good and no bad ones, so Z is all there is.
    pub fn winning(self) -> Positions {
        match self.mode {
            Mode::Ordinary | Mode::Direct => {
                let none = rules::NONE;
                self.inner(&none, &none)
            }
            Mode::Delayed | Mode::Fair => self.outer(),
        }
    }
}
