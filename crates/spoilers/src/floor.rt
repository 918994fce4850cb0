// Spoiler's half of the first sweep, by columns: over a table of zeros High is 0, and the kind of a position tells what it asks for.
ghost use Rattle.std.specs.Prelude.{◌<◌};
ghost use Rattle.simulation.specs.Position.{layers};
ghost use Rattle.arena.specs.Game.{board};
ghost use Rattle.halves.specs.Rising.{Pushed, rising};
ghost use Rattle.spoilers.specs.Floor.{AllFloored, FloorOf};
ghost use Rattle.spoilers.specs.Shape.{Known};
ghost use Rattle.spoilers.specs.Work.{Raising};

use super::gift::Gift;
use super::raise::put;
use arena::Game;
use automaton::Mode;

// What the positions (b, q, r) of a column ask for with High 0: `value` where q is hit, and 0 elsewhere.
#[derive(Clone, Copy)]
struct Floor {
    hit: u64,
    value: u32,
}

// What column (b, ·, r) asks for with High 0.
fn floor_of(game: &Game, acc: u64, b: usize, r: usize) -> Floor
    requires known { Known game.now acc }
    requires column_in_game { (b < layers game.now.arena.mode) × (r < game.now.arena.states) }
    ensures { FloorOf (board game.now) game.now.arena.mode b r result.hit result.value }
{
    if words::has(acc, r) {
        return Floor { hit: 0, value: 0 };
    }
    match game.arena.mode {
        Mode::Ordinary => Floor { hit: 0, value: 0 },
        Mode::Direct => Floor {
            hit: acc,
            value: game.arena.top,
        },
        Mode::Delayed if b == 0 => Floor { hit: 0, value: 0 },
        Mode::Delayed => Floor {
            hit: words::below(game.arena.states),
            value: 1,
        },
        Mode::Fair => Floor { hit: acc, value: 1 },
    }
}

// Raises every (b, q, r) to what it asks for with High 0.
pub fn begin_layer(
    game: &Game,
    acc: u64,
    table: &mut [u32],
    risen: &mut [u64],
    rows: &mut [u64],
    olds: &mut [u32],
    b: usize,
) -> usize
    requires raising { Raising game.now (rising table.old risen.old rows.old olds.old) }
    requires known { Known game.now acc }
    requires bit_in_game { b < layers game.now.arena.mode }
    ensures pushed { Pushed (board game.now) game.now.arena.mode (rising table.old risen.old rows.old olds.old) (rising table.new risen.new rows.new olds.new) result }
    ensures all_floored { AllFloored (board game.now) game.now.arena.mode table.new b }
{
    let mut raised = 0;
    for r in 0..game.arena.states {
        let Floor { hit, value } = floor_of(game, acc, b, r);
        let gift = Gift {
            bump: 0,
            plain: value,
            more: value,
        };
        raised += put(game, table, risen, rows, olds, b, r, hit, gift);
    }
    raised
}
