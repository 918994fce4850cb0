// Pushing what is marked by one letter into a column.
ghost use Rattle.std.specs.Prelude.{◌<◌};
ghost use Rattle.arena.specs.Game.{board};
ghost use Rattle.halves.specs.Drawn.{Into};
ghost use Rattle.halves.specs.Rising.{Pushed, rising};
ghost use Rattle.spoilers.specs.Front.{Guarded, Heard, Lettered};
ghost use Rattle.spoilers.specs.Shape.{Reading, Shaped};
ghost use Rattle.spoilers.specs.Work.{Working};

use super::column::Column;
use super::front::Front;
use super::raise::put;
use arena::Game;

// Pushes one entry, that of the move to x by a, to the states before x: how many entries rise for the first time in this half.
fn push_one(
    game: &Game,
    into: &[u64],
    table: &mut [u32],
    risen: &mut [u64],
    rows: &mut [u64],
    olds: &mut [u32],
    c: Column,
    a: usize,
    x: usize,
    front: &mut Front,
) -> usize
    requires working { Working game.now (rising table.old risen.old rows.old olds.old) }
    requires into { Into (board game.now) into.now }
    requires shaped { Shaped game.now c }
    requires move_in_game { (a < game.now.arena.letters) × (x < game.now.arena.states) }
    requires guarded { Guarded (board game.now) game.now.arena.mode table.old c front.old }
    ensures pushed { Pushed (board game.now) game.now.arena.mode (rising table.old risen.old rows.old olds.old) (rising table.new risen.new rows.new olds.new) result }
    ensures still_guarded { Guarded (board game.now) game.now.arena.mode table.new c front.new }
    ensures heard { Heard (board game.now) game.now.arena.mode c.bit c.blue a table.new x }
{
    let v = table[c.source(game, a, x)];
    if v < c.rule.from {
        return 0;
    }
    let before = into[x * game.arena.letters + a];
    let hit = front.fresh(before, v);
    let gift = c.rule.gift(v, game.arena.top);
    let raised = put(game, table, risen, rows, olds, c.bit, c.blue, hit, gift);
    front.add(before, v);
    raised
}

// Pushes every entry that is marked for the column and the letter: how many entries rise for the first time in this half.
pub fn letter(
    game: &Game,
    into: &[u64],
    grown: &[u64],
    table: &mut [u32],
    risen: &mut [u64],
    rows: &mut [u64],
    olds: &mut [u32],
    c: Column,
    a: usize,
    front: &mut Front,
) -> usize
    requires working { Working game.now (rising table.old risen.old rows.old olds.old) }
    requires reading { Reading game.now into.now grown.now }
    requires shaped { Shaped game.now c }
    requires letter_in_game { a < game.now.arena.letters }
    requires guarded { Guarded (board game.now) game.now.arena.mode table.old c front.old }
    ensures pushed { Pushed (board game.now) game.now.arena.mode (rising table.old risen.old rows.old olds.old) (rising table.new risen.new rows.new olds.new) result }
    ensures still_guarded { Guarded (board game.now) game.now.arena.mode table.new c front.new }
    ensures lettered { Lettered (board game.now) game.now.arena.mode grown.now c.bit c.blue table.new a }
{
    let mut raised = 0;
    for x in words::members(c.sources(game, grown, a)) {
        raised += push_one(game, into, table, risen, rows, olds, c, a, x, front);
    }
    raised
}
