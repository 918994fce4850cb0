// The steps from a position: a stretch of the moves, and the position that each of them leads to.
ghost use Rattle.std.specs.Prelude.{◌≡◌, ◌+◌, ◌*◌, ◌≤◌, ◌<◌, eqb, length, get_or};
ghost use Rattle.automaton.specs.Board.{to};
ghost use Rattle.automaton.specs.Limits.{most_letters, most_states};
ghost use Rattle.asks.specs.Pair.{Within};
ghost use Rattle.asks.specs.Steps.{duplicator_steps, spoiler_steps, spot_of};

use super::index::Index;
use super::pair::Pair;
use arena::{Arena, Game};
use automaton::Move;

// The moves from lo up to hi. One to the state r by the letter a leads to the position base + r · stride + a · step,
// where the base is `marked` if r accepts and `plain` if not.
#[derive(Clone, Copy)]
pub struct Steps {
    pub lo: usize,
    pub hi: usize,
    pub plain: usize,
    pub marked: usize,
    pub stride: usize,
    pub step: usize,
}

// Does state q accept?
pub fn accepts(marks: &[u8], q: usize) -> bool
    requires { q < length marks.now }
    ensures { result ≡ eqb (get_or marks.now q 0) 1 }
{
    marks[q] == 1
}

// The position that move i leads to. P is at most 139,264, so no sum wraps.
pub fn spot(s: Steps, game: &Game, i: usize) -> usize
    requires move_in_moves { i * 3 + 2 < length game.now.moves.now }
    requires goal_in_marks { to game.now.moves.now i < length game.now.marks.now }
    requires spot_small { spot_of s game.now.marks.now game.now.moves.now i < 139264 }
    ensures { result ≡ spot_of s game.now.marks.now game.now.moves.now i }
{
    let Steps {
        plain,
        marked,
        stride,
        step,
        ..
    } = s;
    let Move { letter, to, .. } = Move::at(game.moves, i);
    let base = if accepts(game.marks, to) {
        marked
    } else {
        plain
    };
    base + to * stride + letter * step
}

// The steps from Spoiler's pair: the moves from Red's state.
pub fn spoiler_steps(index: &Index, pair: Pair) -> Steps
    requires few { (index.now.game.arena.states ≤ most_states) × (index.now.game.arena.letters ≤ most_letters) × (index.now.game.arena.pairs ≤ 8192) }
    requires pair_in_arena { Within index.now.game.arena pair }
    ensures { result ≡ spoiler_steps index.now.game.arena index.now.begins.now pair.bit pair.red pair.blue }
{
    let Arena {
        states,
        letters,
        mode,
        pairs,
        ..
    } = index.game.arena;
    let row = pair.red * letters;
    let square = states * states;
    let base = pairs + pair.blue * letters;
    Steps {
        lo: index.begins[row],
        hi: index.begins[row + letters],
        plain: base + pair.bit * square * letters,
        marked: base + arena::pended(mode, pair.bit) * square * letters,
        stride: states * letters,
        step: 1,
    }
}

// The steps from Duplicator's position of a pair and a letter: the moves from Blue's state by the letter.
pub fn duplicator_steps(index: &Index, pair: Pair, a: usize) -> Steps
    requires few { (index.now.game.arena.states ≤ most_states) × (index.now.game.arena.letters ≤ most_letters) }
    requires pair_in_arena { Within index.now.game.arena pair }
    requires letter_in_arena { a < index.now.game.arena.letters }
    ensures { result ≡ duplicator_steps index.now.game.arena index.now.begins.now pair.bit pair.red pair.blue a }
{
    let Arena {
        states,
        letters,
        mode,
        ..
    } = index.game.arena;
    let key = pair.blue * letters + a;
    let square = states * states;
    let base = pair.red * states;
    Steps {
        lo: index.begins[key],
        hi: index.begins[key + 1],
        plain: base + pair.bit * square,
        marked: base + arena::eased(mode, true, pair.bit) * square,
        stride: 1,
        step: 0,
    }
}
