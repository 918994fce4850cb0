// What a position asks for, read off the table step by step.
ghost use Rattle.std.specs.Prelude.{◌*◌, ◌≤◌};
ghost use Rattle.arena.specs.Game.{board};
ghost use Rattle.halves.specs.Drawn.{Accepting, Onto};
ghost use Rattle.levels.specs.Lows.{LowPast, Within};
ghost use Rattle.duplicators.specs.Rows.{Seats, seen_in};

use super::seats::Row;
use super::telling::Tell;
use arena::Game;

// The accepting states, and the steps of each state by each letter.
#[derive(Clone, Copy)]
pub struct Scan<'a> {
    pub acc: u64,
    pub onto: &'a [u64],
}

// The least entry that the steps lead to, and top if there are none. It looks no further once it is no greater than `old`.
fn low_scan(acc: u64, table: &[u32], w: Row, n: usize, steps: u64, old: u32, top: u32) -> u32
    requires within { Within steps n }
    requires n_bound { n ≤ 64 }
    requires seats { Seats n w table.now }
    ensures { LowPast (seen_in acc table.now w) steps top old result }
{
    let mut low = top;
    for x in words::members(steps) {
        if low <= old {
            break;
        }
        low = low.min(w.seen(acc, table, x));
    }
    low
}

impl<'a> Tell for Scan<'a> {
    ghost can_tell = { λ x g t w r a. Accepting (board g) x.acc × Onto (board g) x.onto.now };

    #[inline]
    fn low(&self, game: &Game, table: &[u32], w: Row, r: usize, a: usize) -> u32 {
        let old = table[w.place(game, r, a)];
        let steps = self.onto[r * game.arena.letters + a];
        low_scan(
            self.acc,
            table,
            w,
            game.arena.states,
            steps,
            old,
            game.arena.top,
        )
    }

    ghost tells_again = { λ x g t u w r a same told. told };
}
