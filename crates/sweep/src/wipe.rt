// Taking away what is noted and marked, when a half has used it. Only the rows and columns that the sets name are visited.
ghost use Rattle.std.specs.Prelude.{◌≡◌, ℕ, ◌+◌, ◌*◌, ◌≤◌, ◌<◌, length};
ghost use Rattle.arena.specs.Game.{board};
ghost use Rattle.games.specs.Game.{at};
ghost use Rattle.automaton.specs.Limits.{most_letters, most_states};
ghost use Rattle.words.specs.Word.{In};
ghost use Rattle.halves.specs.Rising.{Blank};
ghost use Rattle.sweep.specs.Poised.{Covered, Emptied};

use arena::{Arena, Game};

// No old entry: more than any entry.
pub const UNSEEN: u32 = u32::MAX;

// Empties the rows in the set, of those that begin at row `first`.
fn some_rows(risen: &mut [u64], olds: &mut [u32], first: usize, states: usize, set: u64)
    requires numbers_fit { (states ≤ most_states) × (first ≤ 64) }
    requires rows_in_bounds { (first + states ≤ length risen.old) × (first + states ≤ length olds.old) }
    ensures emptied { Emptied risen.old risen.new }
    ensures rows_empty { (q : ℕ) → q < states → In q set → at risen.new (first + q) ≡ 0 }
{
    for q in words::members(words::meet(set, words::below(states))) {
        risen[first + q] = 0;
        olds[first + q] = UNSEEN;
    }
}

// Empties the rows that `rows` names, and `rows` itself.
pub fn all_rows(game: &Game, risen: &mut [u64], rows: &mut [u64], olds: &mut [u32])
    requires states_le_most_states { game.now.arena.states ≤ most_states }
    requires rows_in_bounds { (2 * game.now.arena.states ≤ length risen.old) × (2 * game.now.arena.states ≤ length olds.old) × (2 ≤ length rows.old) }
    requires covered { Covered (board game.now) game.now.arena.mode risen.old rows.old }
    ensures { Blank (board game.now) game.now.arena.mode risen.new }
{
    let states = game.arena.states;
    some_rows(risen, olds, 0, states, rows[0]);
    some_rows(risen, olds, states, states, rows[1]);
    rows[0] = 0;
    rows[1] = 0;
}

// Empties the columns in the set, each of one word for each letter, of those that begin at column `first`.
fn some_columns(grown: &mut [u64], first: usize, states: usize, letters: usize, set: u64)
    requires numbers_fit { (states ≤ most_states) × (letters ≤ most_letters) × (first ≤ 64) }
    requires columns_in_bounds { (first + states) * letters ≤ length grown.old }
{
    for r in words::members(words::meet(set, words::below(states))) {
        let from = (first + r) * letters;
        grown[from..from + letters].fill(0);
    }
}

// Empties the columns that `columns` names, and `columns` itself.
pub fn all_columns(g: Arena, grown: &mut [u64], columns: &mut [u64])
    requires numbers_fit { (g.states ≤ most_states) × (g.letters ≤ most_letters) }
    requires columns_in_bounds { (2 * g.states * g.letters ≤ length grown.old) × (2 ≤ length columns.old) }
{
    let states = g.states;
    let letters = g.letters;
    some_columns(grown, 0, states, letters, columns[0]);
    some_columns(grown, states, states, letters, columns[1]);
    columns[0] = 0;
    columns[1] = 0;
}
