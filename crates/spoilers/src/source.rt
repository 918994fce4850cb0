// Where the entries stand that may raise a column, and which of them are marked.
ghost use Rattle.std.specs.Prelude.{◌≡◌, cond, ◌+◌, ◌*◌, ◌≤◌, ◌<◌, eqb, length};
ghost use Rattle.games.specs.Game.{at};
ghost use Rattle.words.specs.Word.{dig};
ghost use Rattle.automaton.specs.Limits.{most_letters, most_states};
ghost use Rattle.simulation.specs.Position.{layers};
ghost use Rattle.arena.specs.Game.{board};
ghost use Rattle.halves.specs.Half.{challenged};
ghost use Rattle.spoilers.specs.Front.{Sources};
ghost use Rattle.spoilers.specs.Shape.{Shaped};

use super::column::Column;
use arena::{Arena, Game};

// The word of marks for Duplicator's column (b, ·, r, a).
fn marks_at(g: Arena, grown: &[u64], b: usize, r: usize, a: usize) -> u64
    requires limits { (g.states ≤ most_states) × (g.letters ≤ most_letters) }
    requires column_in_game { (b < layers g.mode) × (r < g.states) × (a < g.letters) }
    requires words { layers g.mode * g.states * g.letters ≤ length grown.now }
    ensures { result ≡ at grown.now ((b * g.states + r) * g.letters + a) }
{
    grown[(b * g.states + r) * g.letters + a]
}

impl Column {
    // Where the entries begin that moves to x lead to.
    fn begin(self, x: usize) -> usize
        requires { x < 64 }
        ensures { result ≡ cond (eqb (dig self.accepting x) 1) self.marked self.plain }
    {
        if words::has(self.accepting, x) {
            self.marked
        } else {
            self.plain
        }
    }

    // The entry that Red's move to x by a leads to.
    pub fn source(self, game: &Game, a: usize, x: usize) -> usize
        requires shaped { Shaped game.now self }
        requires move_in_game { (a < game.now.arena.letters) × (x < game.now.arena.states) }
        ensures { result ≡ challenged (board game.now) game.now.arena.mode self.bit self.blue x a }
    {
        self.begin(x) + x * (game.arena.states * game.arena.letters) + a
    }

    // The states to which moves by a lead to an entry that is marked.
    pub fn sources(self, game: &Game, grown: &[u64], a: usize) -> u64
        requires shaped { Shaped game.now self }
        requires words { layers game.now.arena.mode * game.now.arena.states * game.now.arena.letters ≤ length grown.now }
        requires letter_in_game { a < game.now.arena.letters }
        ensures { Sources (board game.now) game.now.arena.mode grown.now self.bit self.blue a result }
    {
        let plain = marks_at(game.arena, grown, self.bit, self.blue, a);
        let marked = marks_at(game.arena, grown, self.owing, self.blue, a);
        words::join(
            words::meet(plain, self.others),
            words::meet(marked, self.accepting),
        )
    }
}
