// Where pairs of states have their entries in a table.
ghost use Rattle.std.specs.Prelude.{◌≡◌, ◌<◌};
ghost use Rattle.games.specs.Game.{at};
ghost use Rattle.simulation.specs.Answers.{below};
ghost use Rattle.simulation.specs.Position.{number};
ghost use Rattle.simulation.specs.Rules.{beginning};
ghost use Rattle.arena.specs.Seats.{bare, Seated};

use super::{Arena, owed};

// An arena, the marks lent for it, and a table in which each pair has an entry.
#[derive(Clone, Copy)]
pub struct Seating<'a> {
    pub arena: Arena,
    pub marks: &'a [u8],
    pub table: &'a [u32],
    ghost seated: { Seated arena marks.now table.now },
}

impl Seating<'_> {
    // The entry where the pair (q, r) begins.
    pub fn entry(&self, q: usize, r: usize) -> u32
        requires are_states { (q < self.now.arena.states) × (r < self.now.arena.states) }
        ensures { result ≡ at self.now.table.now (number (bare self.now.arena self.now.marks.now) self.now.arena.mode (beginning (bare self.now.arena self.now.marks.now) self.now.arena.mode q r)) }
    {
        let states = self.arena.states;
        let b = owed(self.arena.mode, self.marks[q] == 1, self.marks[r] == 1);
        self.table[b * (states * states) + q * states + r]
    }

    // Is the beginning of the pair (q, r) below T?
    pub fn below(&self, q: usize, r: usize) -> bool
        requires are_states { (q < self.now.arena.states) × (r < self.now.arena.states) }
        ensures { result ≡ below (bare self.now.arena self.now.marks.now) self.now.arena.mode self.now.table.now q r }
    {
        self.entry(q, r) < self.arena.top
    }
}
