// The settle by half-rounds: sweep after sweep, each made from its two halves, until one raises nothing.
// The table and the number of raises are those of the defined sweeps.
#![tactic(auto)]

ghost use Rattle.std.specs.Prelude.{◌≡◌};
ghost use Rattle.games.specs.Lift.{cleared};
ghost use Rattle.games.specs.Settle.{settle};
ghost use Rattle.arena.specs.Game.{board, Playable, played};
ghost use Rattle.halves.specs.Rising.{Blank};
ghost use Rattle.sweep.specs.Poised.{Equipped};

use arena::Game;
use automaton::Automaton;

// The rows of Spoiler's positions at the limits, with b 0 or 1, and the columns of Duplicator's.
const ROWS: usize = 2 * Automaton::STATES;

const COLUMNS: usize = 2 * halves::WORDS;

// Sweeps a cleared table until a sweep raises nothing: the number of raises.
fn sweeps(
    game: &Game,
    acc: u64,
    into: &[u64],
    onto: &[u64],
    table: &mut [u32],
    risen: &mut [u64],
    rows: &mut [u64],
    olds: &mut [u32],
    grown: &mut [u64],
    columns: &mut [u64],
) -> usize
    requires equipped { Equipped game.now table.old acc into.now onto.now risen.old rows.old olds.old grown.old columns.old }
    requires table_value { table.old ≡ cleared (played game.now) }
    requires blank { Blank (board game.now) game.now.arena.mode risen.old }
    ensures value { result ≡ (settle (played game.now)).raised }
    ensures table_after { table.new ≡ (settle (played game.now)).table }
{
    let mut raised = 0;
    let mut last = sweep::first(
        game, acc, into, onto, table, risen, rows, olds, grown, columns,
    );
    while last != 0 {
        raised += last;
        last = sweep::again(
            game, acc, into, onto, table, risen, rows, olds, grown, columns, last,
        );
    }
    raised
}

// Settles a cleared table: the number of raises.
pub fn settle(game: &Game, table: &mut [u32]) -> usize
    requires ready { Playable game.now table.old }
    requires table_value { table.old ≡ cleared (played game.now) }
    ensures value { result ≡ (settle (played game.now)).raised }
    ensures table_after { table.new ≡ (settle (played game.now)).table }
{
    let mut into = [0u64; halves::WORDS];
    let mut onto = [0u64; halves::WORDS];
    halves::draw(game, &mut into, &mut onto);
    let acc = halves::accepting(game);
    let mut risen = [0u64; ROWS];
    let mut rows = [0u64; 2];
    let mut olds = [sweep::UNSEEN; ROWS];
    let mut grown = [0u64; COLUMNS];
    let mut columns = [0u64; 2];
    sweeps(
        game,
        acc,
        &into,
        &onto,
        table,
        &mut risen,
        &mut rows,
        &mut olds,
        &mut grown,
        &mut columns,
    )
}
