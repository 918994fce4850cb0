// The rows of Duplicator's positions, and Spoiler's entries that their steps lead to.
ghost use Rattle.std.specs.Prelude.{◌≡◌, ◌+◌, ◌≤◌, ◌<◌, length};
ghost use Rattle.automaton.specs.Limits.{most_states};
ghost use Rattle.automaton.specs.Board.{Formed};
ghost use Rattle.simulation.specs.Position.{duplicator, layers, number, pairs};
ghost use Rattle.arena.specs.Game.{board};
ghost use Rattle.duplicators.specs.Rows.{AtMost, Gathered, Rowed, Seats, seen_in};

use arena::{Arena, Game};

// The positions (b,q,·,·): where Spoiler's entries (b,q,·) begin, and where those begin that a step to an accepting state leads to.
#[derive(Clone, Copy)]
pub struct Row {
    pub b: usize,
    pub q: usize,
    pub plain: usize,
    pub marked: usize,
}

impl Row {
    // The row of b and q.
    pub fn of(g: Arena, b: usize, q: usize) -> Row
        requires states_le_most_states { g.states ≤ most_states }
        requires in_range { (b < layers g.mode) × (q < g.states) }
        ensures numbers { (result.b ≡ b) × (result.q ≡ q) }
        ensures rowed { Rowed g.states g.mode result }
    {
        let n = g.states;
        let eased = arena::eased(g.mode, true, b);
        let square = n * n;
        let start = q * n;
        Row {
            b,
            q,
            plain: b * square + start,
            marked: eased * square + start,
        }
    }

    // The number of Duplicator's (b,q,r,a).
    pub fn place(self, game: &Game, r: usize, a: usize) -> usize
        requires formed { Formed (board game.now) }
        requires paired { game.now.arena.pairs ≡ pairs (board game.now) game.now.arena.mode }
        requires rowed { Rowed game.now.arena.states game.now.arena.mode self }
        requires in_range { (r < game.now.arena.states) × (a < game.now.arena.letters) }
        ensures { result ≡ number (board game.now) game.now.arena.mode (duplicator self.b self.q r a) }
    {
        game.arena.pairs + (self.plain + r) * game.arena.letters + a
    }

    // The entry that a step to x leads to.
    pub fn seen(self, acc: u64, table: &[u32], x: usize) -> u32
        requires x_bound { x < 64 }
        requires x_in_bounds { (self.plain + x < length table.now) × (self.marked + x < length table.now) }
        ensures { result ≡ seen_in acc table.now self x }
    {
        if words::has(acc, x) {
            return table[self.marked + x];
        }
        table[self.plain + x]
    }

    // Gathers the entries that steps to the n states lead to: the states whose entry is at most `old`.
    pub fn gather(self, acc: u64, table: &[u32], n: usize, old: u32, row: &mut [u32]) -> u64
        requires row_has_room { (n ≤ 64) × (n ≤ length row.old) }
        requires seats { Seats n self table.now }
        ensures gathered { Gathered acc n table.now self row.new }
        ensures at_most { AtMost n row.new old result }
    {
        let mut low = 0u64;
        for (x, entry) in row[..n].iter_mut().enumerate() {
            *entry = self.seen(acc, table, x);
            if *entry <= old {
                low = words::with(low, x);
            }
        }
        low
    }
}
