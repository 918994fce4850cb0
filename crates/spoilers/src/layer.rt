// Pushing what is marked into the columns of one bit.
ghost use Rattle.std.specs.Prelude.{◌≤◌, ◌<◌, length};
ghost use Rattle.automaton.specs.Limits.{most_states};
ghost use Rattle.simulation.specs.Position.{layers};
ghost use Rattle.arena.specs.Game.{board};
ghost use Rattle.halves.specs.Rising.{Pushed, rising};
ghost use Rattle.spoilers.specs.Front.{Columned, Columns, Layered};
ghost use Rattle.spoilers.specs.Shape.{Known, Reading};
ghost use Rattle.spoilers.specs.Work.{Working};

use super::column::Column;
use super::front::Front;
use super::letter::letter;
use arena::Game;

// Pushes every entry that is marked for column (b, ·, r).
fn column(
    game: &Game,
    acc: u64,
    into: &[u64],
    grown: &[u64],
    table: &mut [u32],
    risen: &mut [u64],
    rows: &mut [u64],
    olds: &mut [u32],
    b: usize,
    r: usize,
) -> usize
    requires working { Working game.now (rising table.old risen.old rows.old olds.old) }
    requires known { Known game.now acc }
    requires reading { Reading game.now into.now grown.now }
    requires column_in_game { (b < layers game.now.arena.mode) × (r < game.now.arena.states) }
    ensures pushed { Pushed (board game.now) game.now.arena.mode (rising table.old risen.old rows.old olds.old) (rising table.new risen.new rows.new olds.new) result }
    ensures columned { Columned (board game.now) game.now.arena.mode grown.now b table.new r }
{
    let c = Column::of(game, acc, b, r);
    if c.rule.from > game.arena.top {
        return 0;
    }
    let mut front = Front {
        greatest: 0,
        had: 0,
    };
    let mut raised = 0;
    for a in 0..game.arena.letters {
        raised += letter(
            game, into, grown, table, risen, rows, olds, c, a, &mut front,
        );
    }
    raised
}

// The r of the columns (b, ·, r) for which something is marked.
fn stirred(game: &Game, columns: &[u64], b: usize) -> u64
    requires few { game.now.arena.states ≤ most_states }
    requires bit_in_game { b < layers game.now.arena.mode }
    requires sets { layers game.now.arena.mode ≤ length columns.now }
    ensures { Columns (board game.now) game.now.arena.mode columns.now b result }
{
    let plain = columns[b];
    let marked = columns[arena::pended(game.arena.mode, b)];
    words::meet(words::join(plain, marked), words::below(game.arena.states))
}

// Pushes every entry that is marked for the columns of b.
pub fn layer(
    game: &Game,
    acc: u64,
    into: &[u64],
    grown: &[u64],
    columns: &[u64],
    table: &mut [u32],
    risen: &mut [u64],
    rows: &mut [u64],
    olds: &mut [u32],
    b: usize,
) -> usize
    requires working { Working game.now (rising table.old risen.old rows.old olds.old) }
    requires known { Known game.now acc }
    requires reading { Reading game.now into.now grown.now }
    requires sets { layers game.now.arena.mode ≤ length columns.now }
    requires bit_in_game { b < layers game.now.arena.mode }
    ensures pushed { Pushed (board game.now) game.now.arena.mode (rising table.old risen.old rows.old olds.old) (rising table.new risen.new rows.new olds.new) result }
    ensures layered { Layered (board game.now) game.now.arena.mode grown.now columns.now table.new b }
{
    let mut raised = 0;
    for r in words::members(stirred(game, columns, b)) {
        raised += column(game, acc, into, grown, table, risen, rows, olds, b, r);
    }
    raised
}
