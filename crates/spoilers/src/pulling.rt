// Spoiler's entries raised by what each asks for: High over Red's moves, read off the table.
ghost use Rattle.std.specs.Int.{from_bool};
ghost use Rattle.std.specs.Prelude.{◌<◌};
ghost use Rattle.simulation.specs.Position.{layers};
ghost use Rattle.arena.specs.Game.{board, Playable};
ghost use Rattle.halves.specs.Drawn.{Onto};
ghost use Rattle.halves.specs.Rising.{Pushed, rising};
ghost use Rattle.spoilers.specs.Pull.{AllHeed, ColumnHeeds, Heeds, HighBy, HighTo};
ghost use Rattle.spoilers.specs.Shape.{Known, Shaped};
ghost use Rattle.spoilers.specs.Work.{Working};

use super::column::Column;
use super::raise::raise;
use arena::Game;

// The greatest of `high` and of the entries that Red's moves from q by a lead to from column c.
fn high_by(
    game: &Game,
    onto: &[u64],
    table: &[u32],
    c: Column,
    q: usize,
    a: usize,
    high: u32,
) -> u32
    requires ready { Playable game.now table.now }
    requires onto { Onto (board game.now) onto.now }
    requires shaped { Shaped game.now c }
    requires move_in_game { (q < game.now.arena.states) × (a < game.now.arena.letters) }
    ensures { HighBy (board game.now) game.now.arena.mode table.now c.bit q c.blue a high result }
{
    let mut h = high;
    for x in words::members(onto[q * game.arena.letters + a]) {
        h = h.max(table[c.source(game, a, x)]);
    }
    h
}

// High over Red's moves from q, from column c.
fn high_of(game: &Game, onto: &[u64], table: &[u32], c: Column, q: usize) -> u32
    requires ready { Playable game.now table.now }
    requires onto { Onto (board game.now) onto.now }
    requires shaped { Shaped game.now c }
    requires state_in_game { q < game.now.arena.states }
    ensures { HighTo (board game.now) game.now.arena.mode table.now c.bit q c.blue game.now.arena.letters result }
{
    let mut h = 0;
    for a in 0..game.arena.letters {
        h = high_by(game, onto, table, c, q, a, h);
    }
    h
}

// Raises the entry of q in column c to what it asks for: whether it rises for the first time in this half.
fn pull_one(
    game: &Game,
    onto: &[u64],
    table: &mut [u32],
    risen: &mut [u64],
    rows: &mut [u64],
    olds: &mut [u32],
    c: Column,
    q: usize,
) -> bool
    requires working { Working game.now (rising table.old risen.old rows.old olds.old) }
    requires onto { Onto (board game.now) onto.now }
    requires shaped { Shaped game.now c }
    requires state_in_game { q < game.now.arena.states }
    ensures pushed { Pushed (board game.now) game.now.arena.mode (rising table.old risen.old rows.old olds.old) (rising table.new risen.new rows.new olds.new) (from_bool result) }
    ensures heeds { Heeds (board game.now) game.now.arena.mode c.bit c.blue table.new q }
{
    let h = high_of(game, onto, &table[..], c, q);
    if h < c.rule.from {
        return false;
    }
    let e = c.rule.gift(h, game.arena.top).to(q);
    raise(game, table, risen, rows, olds, c.bit, q, c.blue, e)
}

// Raises every entry of column (b, ·, r) to what it asks for.
fn pull_column(
    game: &Game,
    acc: u64,
    onto: &[u64],
    table: &mut [u32],
    risen: &mut [u64],
    rows: &mut [u64],
    olds: &mut [u32],
    b: usize,
    r: usize,
) -> usize
    requires working { Working game.now (rising table.old risen.old rows.old olds.old) }
    requires known { Known game.now acc }
    requires onto { Onto (board game.now) onto.now }
    requires column_in_game { (b < layers game.now.arena.mode) × (r < game.now.arena.states) }
    ensures pushed { Pushed (board game.now) game.now.arena.mode (rising table.old risen.old rows.old olds.old) (rising table.new risen.new rows.new olds.new) result }
    ensures column_heeds { ColumnHeeds (board game.now) game.now.arena.mode b table.new r }
{
    let c = Column::of(game, acc, b, r);
    if c.rule.from > game.arena.top {
        return 0;
    }
    let mut raised = 0;
    for q in 0..game.arena.states {
        let rose = pull_one(game, onto, table, risen, rows, olds, c, q);
        raised += usize::from(rose);
    }
    raised
}

// Raises every entry (b, q, r) to what it asks for.
pub fn pull_layer(
    game: &Game,
    acc: u64,
    onto: &[u64],
    table: &mut [u32],
    risen: &mut [u64],
    rows: &mut [u64],
    olds: &mut [u32],
    b: usize,
) -> usize
    requires working { Working game.now (rising table.old risen.old rows.old olds.old) }
    requires known { Known game.now acc }
    requires onto { Onto (board game.now) onto.now }
    requires bit_in_game { b < layers game.now.arena.mode }
    ensures pushed { Pushed (board game.now) game.now.arena.mode (rising table.old risen.old rows.old olds.old) (rising table.new risen.new rows.new olds.new) result }
    ensures all_heed { AllHeed (board game.now) game.now.arena.mode table.new b }
{
    let mut raised = 0;
    for r in 0..game.arena.states {
        raised += pull_column(game, acc, onto, table, risen, rows, olds, b, r);
    }
    raised
}
