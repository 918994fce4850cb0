// Raising Duplicator's entries to what they ask for, and marking those that rise.
ghost use Rattle.std.specs.Prelude.{◌≡◌, ℕ, ◌≤◌, ◌<◌, length};
ghost use Rattle.std.specs.Int.{from_bool};
ghost use Rattle.games.specs.Game.{at};
ghost use Rattle.words.specs.Word.{In};
ghost use Rattle.automaton.specs.Limits.{most_letters, most_states};
ghost use Rattle.simulation.specs.Position.{layers};
ghost use Rattle.arena.specs.Game.{board};
ghost use Rattle.halves.specs.Rising.{Spacious};
ghost use Rattle.levels.specs.Lows.{AllWithin, Within};
ghost use Rattle.duplicators.specs.Growing.{AnsweredIn, growing, MarkedToo};
ghost use Rattle.duplicators.specs.Rows.{Asks, FoundStill, LetterStill, Still, Working};

use super::seats::Row;
use super::telling::Tell;
use arena::Game;

// Marks (b,q,r,a): q in the word of its column, and r in the word of those columns.
fn mark(game: &Game, w: Row, r: usize, a: usize, grown: &mut [u64], columns: &mut [u64])
    requires spacious { Spacious (board game.now) game.now.arena.mode grown.old columns.old }
    requires states_le_most_states { (game.now.arena.states ≤ most_states) × (game.now.arena.letters ≤ most_letters) }
    requires in_range { (w.b < layers game.now.arena.mode) × (w.q < game.now.arena.states) × (r < game.now.arena.states) × (a < game.now.arena.letters) }
    ensures { MarkedToo (board game.now) grown.old columns.old grown.new columns.new w.b w.q r a }
{
    let b = w.b;
    let j = (b * game.arena.states + r) * game.arena.letters + a;
    grown[j] = words::with(grown[j], w.q);
    columns[b] = words::with(columns[b], r);
}

// Raises the entry of (b,q,r,a) to e, which is what it asks for if that is more than it has. Did it rise?
#[inline]
fn raise(
    game: &Game,
    w: Row,
    r: usize,
    a: usize,
    e: u32,
    table: &mut [u32],
    grown: &mut [u64],
    columns: &mut [u64],
) -> bool
    requires working { Working game.now table.old grown.old columns.old w }
    requires in_range { (r < game.now.arena.states) × (a < game.now.arena.letters) }
    requires asks { Asks game.now table.old w r a e }
    ensures answered_in { AnsweredIn game.now (growing table.old grown.old columns.old) (growing table.new grown.new columns.new) (from_bool result) }
    ensures still { Still (board game.now) game.now.arena.mode table.new w.b w.q r a }
{
    let i = w.place(game, r, a);
    if table[i] < e {
        table[i] = e;
        mark(game, w, r, a, grown, columns);
        return true;
    }
    false
}

// Raises a letter's candidates to what they ask for: how many rose.
#[inline]
fn raise_letter<T: Tell>(
    game: &Game,
    tell: &T,
    w: Row,
    a: usize,
    candidates: u64,
    table: &mut [u32],
    grown: &mut [u64],
    columns: &mut [u64],
) -> usize
    requires working { Working game.now table.old grown.old columns.old w }
    requires in_range { (a < game.now.arena.letters) × Within candidates game.now.arena.states }
    requires can_tell { (r : ℕ) → In r candidates → T.can_tell tell.now game.now table.old w r a }
    ensures answered_in { AnsweredIn game.now (growing table.old grown.old columns.old) (growing table.new grown.new columns.new) result }
    ensures letter_still { LetterStill (board game.now) game.now.arena.mode table.new w.b w.q a candidates }
{
    let mut count = 0;
    for r in words::members(candidates) {
        let low = tell.low(game, &table[..], w, r, a);
        let rose = raise(game, w, r, a, low, table, grown, columns);
        count += usize::from(rose);
    }
    count
}

// The same of every letter.
#[inline]
pub fn raise_all<T: Tell>(
    game: &Game,
    tell: &T,
    w: Row,
    found: &[u64],
    table: &mut [u32],
    grown: &mut [u64],
    columns: &mut [u64],
) -> usize
    requires working { Working game.now table.old grown.old columns.old w }
    requires found_within { (game.now.arena.letters ≤ length found.now) × AllWithin game.now.arena.letters game.now.arena.states found.now }
    requires can_tell { (a r : ℕ) → a < game.now.arena.letters → In r (at found.now a) → T.can_tell tell.now game.now table.old w r a }
    ensures answered_in { AnsweredIn game.now (growing table.old grown.old columns.old) (growing table.new grown.new columns.new) result }
    ensures found_still { FoundStill (board game.now) game.now.arena.mode table.new w.b w.q game.now.arena.letters found.now }
{
    let mut count = 0;
    for a in 0..game.arena.letters {
        count += raise_letter(game, tell, w, a, found[a], table, grown, columns);
    }
    count
}
