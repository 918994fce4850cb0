// Telling what a position of a row asks for, whichever way it is found out.
ghost use Rattle.std.specs.Prelude.{◌≡◌, ℕ, List, ◌<◌};
ghost use Rattle.arena.specs.declared.game.Game.{Game};
ghost use Rattle.arena.specs.Game.{board, Playable};
ghost use Rattle.halves.specs.Half.{low_at};
ghost use Rattle.duplicators.specs.declared.seats.Row.{Row};
ghost use Rattle.duplicators.specs.Rows.{Asks, Rowed};

use super::seats::Row;
use arena::Game;

pub trait Tell {
    // With this table it can tell what (b,q,r,a) asks for.
    ghost can_tell: { Self → Game → (table : List ℕ) → Row → (r a : ℕ) → Type 0 };

    // What (b,q,r,a) asks for, or what raises its entry as little.
    fn low(&self, game: &Game, table: &[u32], w: Row, r: usize, a: usize) -> u32
        requires ready { Playable game.now table.now }
        requires rowed { Rowed game.now.arena.states game.now.arena.mode w }
        requires in_range { (r < game.now.arena.states) × (a < game.now.arena.letters) }
        requires can_tell { can_tell self.now game.now table.now w r a }
        ensures { Asks game.now table.now w r a result };

    // It can as long as the position asks for the same.
    ghost tells_again: { (x : Self) (g : Game) (t u : List ℕ) (w : Row) (r a : ℕ)
        → low_at (board g) g.arena.mode u w.b w.q r a ≡ low_at (board g) g.arena.mode t w.b w.q r a → can_tell x g t w r a → can_tell x g u w r a };
}
