// Spoiler's half of a sweep: what Duplicator's entries rose to is pushed to the entries that it may raise, or every entry is raised to what it asks for.
#![tactic(auto)]

ghost use Rattle.std.specs.Prelude.{◌≡◌, ℕ, ◌<◌, length};
ghost use Rattle.games.specs.Game.{at};
ghost use Rattle.games.specs.Half.{Halved, rose};
ghost use Rattle.games.specs.Lift.{Capped};
ghost use Rattle.simulation.specs.Position.{layers};
ghost use Rattle.arena.specs.Game.{board, Playable, played};
ghost use Rattle.halves.specs.Drawn.{Accepting, Into, Onto};
ghost use Rattle.halves.specs.Half.{AllCalm};
ghost use Rattle.halves.specs.Rising.{AllNoted, Blank, Roomy, Spacious, rising};
ghost use Rattle.spoilers.specs.Floor.{AllFloored};

mod column;
mod floor;
mod front;
mod gift;
mod layer;
mod letter;
mod note;
mod pulling;
mod raise;
mod source;

use arena::Game;
use floor::begin_layer;
use layer::layer;
use pulling::pull_layer;

// Spoiler's half of a sweep, where only what is marked in `grown` and `columns` may raise an entry: how many entries rose. They are noted in `risen`,
// which is empty at first, with their rows in `rows` and the least of their old entries in `olds`.
pub fn push(
    game: &Game,
    acc: u64,
    into: &[u64],
    grown: &[u64],
    columns: &[u64],
    table: &mut [u32],
    risen: &mut [u64],
    rows: &mut [u64],
    olds: &mut [u32],
) -> usize
    requires ready { Playable game.now table.old }
    requires accepting { Accepting (board game.now) acc }
    requires into { Into (board game.now) into.now }
    requires spacious { Spacious (board game.now) game.now.arena.mode grown.now columns.now }
    requires roomy { Roomy (board game.now) game.now.arena.mode (rising table.old risen.old rows.old olds.old) }
    requires capped { Capped (played game.now) table.old }
    requires all_calm { AllCalm (board game.now) game.now.arena.mode table.old grown.now columns.now }
    requires blank { Blank (board game.now) game.now.arena.mode risen.old }
    ensures halved { Halved (played game.now) 0 game.now.arena.pairs table.old table.new }
    ensures value { result ≡ rose table.old table.new (length table.old) }
    ensures all_noted { AllNoted (board game.now) game.now.arena.mode table.old (rising table.new risen.new rows.new olds.new) }
{
    let mut raised = 0;
    for b in 0..arena::layers_of(game.arena.mode) {
        raised += layer(game, acc, into, grown, columns, table, risen, rows, olds, b);
    }
    raised
}

// Spoiler's half of a sweep, where every entry is raised to what it asks for: how many entries rose. They are noted as by `push`, which is the cheaper
// way where little may rise.
pub fn pull(
    game: &Game,
    acc: u64,
    onto: &[u64],
    table: &mut [u32],
    risen: &mut [u64],
    rows: &mut [u64],
    olds: &mut [u32],
) -> usize
    requires ready { Playable game.now table.old }
    requires accepting { Accepting (board game.now) acc }
    requires onto { Onto (board game.now) onto.now }
    requires roomy { Roomy (board game.now) game.now.arena.mode (rising table.old risen.old rows.old olds.old) }
    requires capped { Capped (played game.now) table.old }
    requires floored { (b : ℕ) → b < layers game.now.arena.mode → AllFloored (board game.now) game.now.arena.mode table.old b }
    requires blank { Blank (board game.now) game.now.arena.mode risen.old }
    ensures halved { Halved (played game.now) 0 game.now.arena.pairs table.old table.new }
    ensures value { result ≡ rose table.old table.new (length table.old) }
    ensures all_noted { AllNoted (board game.now) game.now.arena.mode table.old (rising table.new risen.new rows.new olds.new) }
{
    let mut raised = 0;
    for b in 0..arena::layers_of(game.arena.mode) {
        raised += pull_layer(game, acc, onto, table, risen, rows, olds, b);
    }
    raised
}

// Spoiler's half of the first sweep, of a table of zeros: how many entries rose. They are noted as by `push`.
pub fn begin(
    game: &Game,
    acc: u64,
    table: &mut [u32],
    risen: &mut [u64],
    rows: &mut [u64],
    olds: &mut [u32],
) -> usize
    requires ready { Playable game.now table.old }
    requires accepting { Accepting (board game.now) acc }
    requires roomy { Roomy (board game.now) game.now.arena.mode (rising table.old risen.old rows.old olds.old) }
    requires zeros { (v : ℕ) → at table.old v ≡ 0 }
    requires blank { Blank (board game.now) game.now.arena.mode risen.old }
    ensures halved { Halved (played game.now) 0 game.now.arena.pairs table.old table.new }
    ensures value { result ≡ rose table.old table.new (length table.old) }
    ensures all_noted { AllNoted (board game.now) game.now.arena.mode table.old (rising table.new risen.new rows.new olds.new) }
{
    let mut raised = 0;
    for b in 0..arena::layers_of(game.arena.mode) {
        raised += begin_layer(game, acc, table, risen, rows, olds, b);
    }
    raised
}
