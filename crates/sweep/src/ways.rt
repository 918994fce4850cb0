// The two ways through Spoiler's half of a later sweep, and which of them to take.
ghost use Rattle.std.specs.Prelude.{◌≡◌, ◌≤◌, length};
ghost use Rattle.games.specs.Half.{Halved, rose};
ghost use Rattle.games.specs.Lift.{Capped};
ghost use Rattle.arena.specs.Game.{board, Playable, played};
ghost use Rattle.halves.specs.Drawn.{Accepting, Into, Onto};
ghost use Rattle.halves.specs.Half.{AllCalm};
ghost use Rattle.halves.specs.Rising.{AllNoted, Blank, Roomy, Spacious, rising};

use arena::{Arena, Game};
use automaton::Mode;

// Is pulling the cheaper way? It is in fair mode where the last sweep raised much, against what it costs to look at every move. Either way is right.
fn dense(g: Arena, moves: usize, last: usize) -> bool
    requires { (g.states ≤ 64) × (g.letters ≤ 16) }
{
    let n = g.states;
    let k = g.letters;
    match g.mode {
        Mode::Ordinary | Mode::Direct | Mode::Delayed => false,
        Mode::Fair => moves <= 65536 && n * (n * k + moves) / 8 <= last,
    }
}

// Spoiler's half of a later sweep, by the cheaper way: how many entries rose. `last` is how many lifts of the sweep before raised an entry.
pub fn challenge(
    game: &Game,
    acc: u64,
    into: &[u64],
    onto: &[u64],
    grown: &[u64],
    columns: &[u64],
    table: &mut [u32],
    risen: &mut [u64],
    rows: &mut [u64],
    olds: &mut [u32],
    last: usize,
) -> usize
    requires ready { Playable game.now table.old }
    requires accepting { Accepting (board game.now) acc }
    requires into { Into (board game.now) into.now }
    requires onto { Onto (board game.now) onto.now }
    requires spacious { Spacious (board game.now) game.now.arena.mode grown.now columns.now }
    requires roomy { Roomy (board game.now) game.now.arena.mode (rising table.old risen.old rows.old olds.old) }
    requires capped { Capped (played game.now) table.old }
    requires all_calm { AllCalm (board game.now) game.now.arena.mode table.old grown.now columns.now }
    requires blank { Blank (board game.now) game.now.arena.mode risen.old }
    ensures halved { Halved (played game.now) 0 game.now.arena.pairs table.old table.new }
    ensures value { result ≡ rose table.old table.new (length table.old) }
    ensures all_noted { AllNoted (board game.now) game.now.arena.mode table.old (rising table.new risen.new rows.new olds.new) }
{
    if dense(game.arena, game.moves.len() / 3, last) {
        return spoilers::pull(game, acc, onto, table, risen, rows, olds);
    }
    spoilers::push(game, acc, into, grown, columns, table, risen, rows, olds)
}
