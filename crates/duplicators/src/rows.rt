// One row of Duplicator's positions: its candidates are raised by what a scan of their steps or the row's levels tell.
ghost use Rattle.std.specs.Prelude.{◌*◌, ◌≤◌, length};
ghost use Rattle.arena.specs.Game.{board};
ghost use Rattle.halves.specs.Drawn.{Accepting, Into, Onto};
ghost use Rattle.levels.specs.Lows.{AllWithin, Within};
ghost use Rattle.duplicators.specs.Growing.{AnsweredIn, growing};
ghost use Rattle.duplicators.specs.Rows.{Faithful, FoundStill, LevelsTell, RowFound, RowStill, RowStirred, Working};

use super::drawn::Drawn;
use super::raising::raise_all;
use super::seats::Row;
use super::told::Told;
use automaton::Automaton;
use levels::candidates;
use levels::row::Level;

// Raises the candidates of a row, none of which has a step to one of `low`, by the levels of the others: how many rose.
fn level_rest(
    drawn: &Drawn,
    w: Row,
    row: &[u32],
    low: u64,
    found: &[u64],
    table: &mut [u32],
    grown: &mut [u64],
    columns: &mut [u64],
) -> usize
    requires working { Working drawn.now.game table.old grown.old columns.old w }
    requires faithful { Faithful drawn.now }
    requires found_within { (drawn.now.game.arena.letters ≤ length found.now) × AllWithin drawn.now.game.arena.letters drawn.now.game.arena.states found.now }
    requires row_whole { drawn.now.game.arena.states ≤ length row.now }
    requires levels_tell { LevelsTell (board drawn.now.game) drawn.now.game.arena.mode table.old w.b w.q drawn.now.onto.now row.now low drawn.now.game.arena.top found.now }
    ensures answered_in { AnsweredIn drawn.now.game (growing table.old grown.old columns.old) (growing table.new grown.new columns.new) result }
    ensures found_still { FoundStill (board drawn.now.game) drawn.now.game.arena.mode table.new w.b w.q drawn.now.game.arena.letters found.now }
{
    let mut room = [Level {
        value: 0,
        members: 0,
    }; Automaton::STATES];
    let rest = words::minus(words::below(drawn.game.arena.states), low);
    let levels = levels::row::levels(row, rest, drawn.game.arena.top, &mut room);
    let told = Told {
        onto: drawn.onto,
        levels,
    };
    raise_all(&drawn.game, &told, w, found, table, grown, columns)
}

// Are there at most 8 candidates? Either answer is right.
fn at_most_8(k: usize, found: &[u64]) -> bool
    requires { (k ≤ 16) × (k ≤ length found.now) }
{
    let mut count = 0;
    for word in &found[..k] {
        count += words::size(*word);
        if 8 < count {
            return false;
        }
    }
    true
}

// The same, by scans where the candidates are few: levels would cost more than they save.
fn raise_rest(
    drawn: &Drawn,
    w: Row,
    row: &[u32],
    low: u64,
    found: &[u64],
    table: &mut [u32],
    grown: &mut [u64],
    columns: &mut [u64],
) -> usize
    requires working { Working drawn.now.game table.old grown.old columns.old w }
    requires faithful { Faithful drawn.now }
    requires found_within { (drawn.now.game.arena.letters ≤ length found.now) × AllWithin drawn.now.game.arena.letters drawn.now.game.arena.states found.now }
    requires row_whole { drawn.now.game.arena.states ≤ length row.now }
    requires levels_tell { LevelsTell (board drawn.now.game) drawn.now.game.arena.mode table.old w.b w.q drawn.now.onto.now row.now low drawn.now.game.arena.top found.now }
    ensures answered_in { AnsweredIn drawn.now.game (growing table.old grown.old columns.old) (growing table.new grown.new columns.new) result }
    ensures found_still { FoundStill (board drawn.now.game) drawn.now.game.arena.mode table.new w.b w.q drawn.now.game.arena.letters found.now }
{
    if at_most_8(drawn.game.arena.letters, found) {
        return raise_all(&drawn.game, &drawn.scan(), w, found, table, grown, columns);
    }
    level_rest(drawn, w, row, low, found, table, grown, columns)
}

// Raises the candidates of a row, but for those that have a step to an entry of at most `old`: how many rose.
fn level_row(
    drawn: &Drawn,
    w: Row,
    old: u32,
    found: &mut [u64],
    table: &mut [u32],
    grown: &mut [u64],
    columns: &mut [u64],
) -> usize
    requires working { Working drawn.now.game table.old grown.old columns.old w }
    requires faithful { Faithful drawn.now }
    requires found_within { (drawn.now.game.arena.letters ≤ length found.old) × AllWithin drawn.now.game.arena.letters drawn.now.game.arena.states found.old }
    requires row_found { RowFound (board drawn.now.game) drawn.now.game.arena.mode table.old w.b w.q found.old old }
    ensures answered_in { AnsweredIn drawn.now.game (growing table.old grown.old columns.old) (growing table.new grown.new columns.new) result }
    ensures row_still { RowStill (board drawn.now.game) drawn.now.game.arena.mode table.new w.b w.q }
{
    let n = drawn.game.arena.states;
    let k = drawn.game.arena.letters;
    let mut row = [0u32; Automaton::STATES];
    let low = w.gather(drawn.acc, &table[..], n, old, &mut row);
    let any = candidates::spare_all(n, k, drawn.into, low, found);
    if any == 0 {
        return 0;
    }
    raise_rest(drawn, w, &row, low, &found[..], table, grown, columns)
}

// Are scans the cheaper way? They are for few candidates, and where states have few moves; but with T of 1 many candidates are soonest
// told apart by words, since all that have no step to a 0 rise. Either way is right.
fn few(n: usize, k: usize, count: usize, moves: usize, top: u32) -> bool
    requires { (n ≤ 64) × (k ≤ 16) × (count ≤ 1024) }
{
    if count <= 8 {
        return true;
    }
    if top == 1 && count > 64 {
        return false;
    }
    moves <= 65536 && count * moves <= (4 * n + 2 * count) * n * k
}

// Raises the entries of a row, of which those may rise that have a step to one of `fresh`: how many rose.
pub fn answer_row(
    drawn: &Drawn,
    w: Row,
    fresh: u64,
    old: u32,
    table: &mut [u32],
    grown: &mut [u64],
    columns: &mut [u64],
) -> usize
    requires working { Working drawn.now.game table.old grown.old columns.old w }
    requires faithful { Faithful drawn.now }
    requires within { Within fresh drawn.now.game.arena.states }
    requires row_stirred { RowStirred (board drawn.now.game) drawn.now.game.arena.mode table.old w.b w.q fresh old }
    ensures answered_in { AnsweredIn drawn.now.game (growing table.old grown.old columns.old) (growing table.new grown.new columns.new) result }
    ensures row_still { RowStill (board drawn.now.game) drawn.now.game.arena.mode table.new w.b w.q }
{
    let game = &drawn.game;
    let n = game.arena.states;
    let k = game.arena.letters;
    let mut found = [0u64; Automaton::LETTERS];
    let count = candidates::reach_all(n, k, drawn.into, fresh, &mut found);
    if few(n, k, count, game.moves.len() / 3, game.arena.top) {
        return raise_all(game, &drawn.scan(), w, &found, table, grown, columns);
    }
    level_row(drawn, w, old, &mut found, table, grown, columns)
}
