// Raising Spoiler's entries: one, and those of a set of states.
ghost use Rattle.std.specs.Int.{from_bool};
ghost use Rattle.std.specs.Prelude.{◌≤◌, ◌<◌};
ghost use Rattle.games.specs.Game.{asked, at};
ghost use Rattle.simulation.specs.Position.{layers, pair};
ghost use Rattle.arena.specs.Game.{board, played};
ghost use Rattle.halves.specs.Rising.{Pushed, rising};
ghost use Rattle.spoilers.specs.Work.{dealt, Hits, Holds, Raising};

use super::gift::Gift;
use super::note::note;
use arena::Game;

// Raises Spoiler's (b, q, r) to e, which it asks for: whether it rises for the first time in this half.
pub fn raise(
    game: &Game,
    table: &mut [u32],
    risen: &mut [u64],
    rows: &mut [u64],
    olds: &mut [u32],
    b: usize,
    q: usize,
    r: usize,
    e: u32,
) -> bool
    requires raising { Raising game.now (rising table.old risen.old rows.old olds.old) }
    requires position_in_game { (b < layers game.now.arena.mode) × (q < game.now.arena.states) × (r < game.now.arena.states) }
    requires due { e ≤ asked (played game.now) (at table.old) (pair (board game.now) b q r) }
    ensures pushed { Pushed (board game.now) game.now.arena.mode (rising table.old risen.old rows.old olds.old) (rising table.new risen.new rows.new olds.new) (from_bool result) }
    ensures held { e ≤ at table.new (pair (board game.now) b q r) }
{
    let states = game.arena.states;
    let row = b * states + q;
    let i = row * states + r;
    let was = table[i];
    if e <= was {
        return false;
    }
    table[i] = e;
    note(risen, rows, olds, row, b, q, r, was)
}

// Raises Spoiler's (b, q, r) for each q that is hit to what q gets: how many rise for the first time in this half.
pub fn put(
    game: &Game,
    table: &mut [u32],
    risen: &mut [u64],
    rows: &mut [u64],
    olds: &mut [u32],
    b: usize,
    r: usize,
    hit: u64,
    gift: Gift,
) -> usize
    requires raising { Raising game.now (rising table.old risen.old rows.old olds.old) }
    requires column_in_game { (b < layers game.now.arena.mode) × (r < game.now.arena.states) }
    requires hits { Hits (board game.now) game.now.arena.mode table.old b r hit (dealt gift) }
    ensures pushed { Pushed (board game.now) game.now.arena.mode (rising table.old risen.old rows.old olds.old) (rising table.new risen.new rows.new olds.new) result }
    ensures holds { Holds (board game.now) table.new b r hit (dealt gift) }
{
    let mut raised = 0;
    for q in words::members(hit) {
        let rose = raise(game, table, risen, rows, olds, b, q, r, gift.to(q));
        raised += usize::from(rose);
    }
    raised
}
