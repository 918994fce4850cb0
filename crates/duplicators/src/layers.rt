// The rows of a layer that have a risen entry: those of Spoiler's entries (b,·,·), and those that steps to accepting states lead to.
ghost use Rattle.std.specs.Prelude.{◌<◌};
ghost use Rattle.simulation.specs.Position.{layers};
ghost use Rattle.arena.specs.Game.{board};
ghost use Rattle.halves.specs.Rising.{rising};
ghost use Rattle.duplicators.specs.Fresh.{Fresh};
ghost use Rattle.duplicators.specs.Growing.{AnsweredIn, growing};
ghost use Rattle.duplicators.specs.Rows.{LayerStill, LayerStirred, Prepared, RedStirred, RowStill};

use super::drawn::{Drawn, Notes};
use super::rows::answer_row;
use super::seats::Row;

// The states whose entries have risen, as Duplicator sees them: of `plain` those that are in `others`, and of `marked` those that accept.
fn fresh_in(acc: u64, others: u64, plain: u64, marked: u64) -> u64
    ensures { Fresh acc others plain marked result }
{
    words::join(words::meet(plain, others), words::meet(marked, acc))
}

// Raises the entries (b,q,·,·): how many rose.
fn answer_red(
    drawn: &Drawn,
    notes: &Notes,
    b: usize,
    q: usize,
    table: &mut [u32],
    grown: &mut [u64],
    columns: &mut [u64],
) -> usize
    requires prepared { Prepared drawn.now (rising table.old notes.now.risen.now notes.now.rows.now notes.now.olds.now) grown.old columns.old }
    requires in_range { (b < layers drawn.now.game.arena.mode) × (q < drawn.now.game.arena.states) }
    requires red_stirred { RedStirred (board drawn.now.game) drawn.now.game.arena.mode (rising table.old notes.now.risen.now notes.now.rows.now notes.now.olds.now) b q }
    ensures answered_in { AnsweredIn drawn.now.game (growing table.old grown.old columns.old) (growing table.new grown.new columns.new) result }
    ensures row_still { RowStill (board drawn.now.game) drawn.now.game.arena.mode table.new b q }
{
    let arena = drawn.game.arena;
    let n = arena.states;
    let i = b * n + q;
    let j = arena::eased(arena.mode, true, b) * n + q;
    let others = words::minus(words::below(n), drawn.acc);
    let fresh = fresh_in(drawn.acc, others, notes.risen[i], notes.risen[j]);
    if fresh == 0 {
        return 0;
    }
    let old = notes.olds[i].min(notes.olds[j]);
    let w = Row::of(arena, b, q);
    answer_row(drawn, w, fresh, old, table, grown, columns)
}

// Raises the entries (b,·,·,·): how many rose.
pub fn answer_layer(
    drawn: &Drawn,
    notes: &Notes,
    b: usize,
    table: &mut [u32],
    grown: &mut [u64],
    columns: &mut [u64],
) -> usize
    requires prepared { Prepared drawn.now (rising table.old notes.now.risen.now notes.now.rows.now notes.now.olds.now) grown.old columns.old }
    requires b_bound { b < layers drawn.now.game.arena.mode }
    requires layer_stirred { LayerStirred (board drawn.now.game) drawn.now.game.arena.mode (rising table.old notes.now.risen.now notes.now.rows.now notes.now.olds.now) b }
    ensures answered_in { AnsweredIn drawn.now.game (growing table.old grown.old columns.old) (growing table.new grown.new columns.new) result }
    ensures layer_still { LayerStill (board drawn.now.game) drawn.now.game.arena.mode table.new b }
{
    let arena = drawn.game.arena;
    let eased = arena::eased(arena.mode, true, b);
    let touched = words::meet(
        words::join(notes.rows[b], notes.rows[eased]),
        words::below(arena.states),
    );
    let mut count = 0;
    for q in words::members(touched) {
        count += answer_red(drawn, notes, b, q, table, grown, columns);
    }
    count
}
