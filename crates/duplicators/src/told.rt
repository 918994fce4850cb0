// What a position asks for, as the row's levels tell it.
ghost use Rattle.std.specs.Prelude.{◌*◌, ◌≤◌, length};
ghost use Rattle.std.proofs.Common.{◌∙◌, sym};
ghost use Rattle.arena.specs.Game.{board};
ghost use Rattle.duplicators.specs.Rows.{Tells};

use super::seats::Row;
use super::telling::Tell;
use arena::Game;
use levels::row::{Level, low_among};

// The steps of each state by each letter, and the levels of the entries that they lead to.
#[derive(Clone, Copy)]
pub struct Told<'a> {
    pub onto: &'a [u64],
    pub levels: &'a [Level],
}

impl<'a> Tell for Told<'a> {
    ghost can_tell = { λ x g t w r a. (g.arena.states * g.arena.letters ≤ length x.onto.now) × Tells (board g) g.arena.mode t w.b w.q x.onto.now x.levels.now g.arena.top r a };

    #[inline]
    fn low(&self, game: &Game, _table: &[u32], _w: Row, r: usize, a: usize) -> u32 {
        let steps = self.onto[r * game.arena.letters + a];
        low_among(self.levels, steps, game.arena.top)
    }

    ghost tells_again = { λ x g t u w r a same told. (told.0, λ e h. told.1 e h ∙ sym same) };
}
