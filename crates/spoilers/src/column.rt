// A column of Spoiler's positions, (b, q, r) for every q: how they ask, and where the entries stand that may raise them.
ghost use Rattle.std.specs.Prelude.{◌<◌};
ghost use Rattle.simulation.specs.Position.{layers};
ghost use Rattle.arena.specs.Game.{board};
ghost use Rattle.spoilers.specs.Shape.{Asking, ColumnOf, Known};

use super::gift::Rule;
use arena::Game;
use automaton::Mode;

// Column (b, ·, r): the bits b and `owing`, which b becomes when Red moves to an accepting state; the state r of Blue; the states that accept and
// the others; where the entries begin that Red's moves lead to, `plain` for moves to states that do not accept and `marked` for moves to accepting
// ones; and the column's rule.
#[derive(Clone, Copy)]
pub struct Column {
    pub bit: usize,
    pub owing: usize,
    pub blue: usize,
    pub accepting: u64,
    pub others: u64,
    pub plain: usize,
    pub marked: usize,
    pub rule: Rule,
}

// The rule of column (b, ·, r).
fn rule_of(game: &Game, acc: u64, b: usize, r: usize) -> Rule
    requires known { Known game.now acc }
    requires column_in_game { (b < layers game.now.arena.mode) × (r < game.now.arena.states) }
    ensures { Asking (board game.now) game.now.arena.mode b r result.from result.bump }
{
    let top = game.arena.top;
    let accepts = words::has(acc, r);
    match game.arena.mode {
        Mode::Ordinary | Mode::Direct => Rule { from: 0, bump: 0 },
        Mode::Delayed if b == 0 => Rule { from: top, bump: 0 },
        Mode::Delayed if accepts => Rule {
            from: top + 1,
            bump: 0,
        },
        Mode::Delayed => Rule {
            from: 0,
            bump: words::below(game.arena.states),
        },
        Mode::Fair if accepts => Rule { from: top, bump: 0 },
        Mode::Fair => Rule { from: 0, bump: acc },
    }
}

impl Column {
    // Column (b, ·, r).
    pub fn of(game: &Game, acc: u64, b: usize, r: usize) -> Column
        requires known { Known game.now acc }
        requires column_in_game { (b < layers game.now.arena.mode) × (r < game.now.arena.states) }
        ensures { ColumnOf game.now b r result }
    {
        let states = game.arena.states;
        let letters = game.arena.letters;
        let square = states * states;
        let owing = arena::pended(game.arena.mode, b);
        Column {
            bit: b,
            owing,
            blue: r,
            accepting: acc,
            others: words::minus(words::below(states), acc),
            plain: game.arena.pairs + (b * square + r) * letters,
            marked: game.arena.pairs + (owing * square + r) * letters,
            rule: rule_of(game, acc, b, r),
        }
    }
}
