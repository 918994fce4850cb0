// One sweep, made from its two halves: Spoiler's, then Duplicator's, and what is at rest is left out.
// It stands by itself: `rounds` goes from sweep to sweep by what a sweep promises, whichever way it is made.
#![tactic(auto)]

mod ways;
mod wipe;

ghost use Rattle.std.specs.Prelude.{◌≡◌};
ghost use Rattle.games.specs.Lift.{cleared, lifts, raises};
ghost use Rattle.games.specs.Settle.{sweep};
ghost use Rattle.arena.specs.Game.{board, played};
ghost use Rattle.halves.specs.Rising.{Blank};
ghost use Rattle.sweep.specs.Poised.{Equipped, Poised};

use arena::Game;
pub use wipe::UNSEEN;

// The first sweep of a cleared table, a full pass: how many lifts raised an entry.
pub fn first(
    game: &Game,
    acc: u64,
    into: &[u64],
    onto: &[u64],
    table: &mut [u32],
    risen: &mut [u64],
    rows: &mut [u64],
    olds: &mut [u32],
    grown: &mut [u64],
    columns: &mut [u64],
) -> usize
    requires equipped { Equipped game.now table.old acc into.now onto.now risen.old rows.old olds.old grown.old columns.old }
    requires table_value { table.old ≡ cleared (played game.now) }
    requires blank { Blank (board game.now) game.now.arena.mode risen.old }
    ensures value { result ≡ raises (played game.now) table.old (sweep (played game.now)) }
    ensures table_after { table.new ≡ lifts (played game.now) table.old (sweep (played game.now)) }
    ensures poised { Poised (board game.now) game.now.arena.mode table.new risen.new grown.new columns.new }
{
    let begun = spoilers::begin(game, acc, table, risen, rows, olds);
    let ended = duplicators::dead_ends(game, acc, onto, table, grown, columns);
    let answered = duplicators::answer(
        game,
        acc,
        into,
        onto,
        &risen[..],
        &rows[..],
        &olds[..],
        table,
        grown,
        columns,
    );
    wipe::all_rows(game, risen, rows, olds);
    begun + ended + answered
}

// A later sweep: how many lifts raised an entry. `last` is how many did in the sweep before.
pub fn again(
    game: &Game,
    acc: u64,
    into: &[u64],
    onto: &[u64],
    table: &mut [u32],
    risen: &mut [u64],
    rows: &mut [u64],
    olds: &mut [u32],
    grown: &mut [u64],
    columns: &mut [u64],
    last: usize,
) -> usize
    requires equipped { Equipped game.now table.old acc into.now onto.now risen.old rows.old olds.old grown.old columns.old }
    requires poised { Poised (board game.now) game.now.arena.mode table.old risen.old grown.old columns.old }
    ensures value { result ≡ raises (played game.now) table.old (sweep (played game.now)) }
    ensures table_after { table.new ≡ lifts (played game.now) table.old (sweep (played game.now)) }
    ensures poised_again { Poised (board game.now) game.now.arena.mode table.new risen.new grown.new columns.new }
{
    let pushed = ways::challenge(
        game,
        acc,
        into,
        onto,
        &grown[..],
        &columns[..],
        table,
        risen,
        rows,
        olds,
        last,
    );
    wipe::all_columns(game.arena, grown, columns);
    let answered = duplicators::answer(
        game,
        acc,
        into,
        onto,
        &risen[..],
        &rows[..],
        &olds[..],
        table,
        grown,
        columns,
    );
    wipe::all_rows(game, risen, rows, olds);
    pushed + answered
}
