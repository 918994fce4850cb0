// Where the moves of each state and letter begin. The moves ascend, so their keys (from · letters + letter) never fall,
// and those of one state, or of one state and letter, are a stretch of them.
ghost use Rattle.std.specs.Prelude.{◌≡◌, ◌+◌, ◌*◌, ◌-◌, ◌/◌, ◌≤◌, ◌<◌, leb, length};
ghost use Rattle.automaton.specs.Board.{Formed};
ghost use Rattle.automaton.specs.First.{first};
ghost use Rattle.arena.specs.Game.{board};
ghost use Rattle.automaton.specs.Limits.{most_letters, most_states};
ghost use Rattle.asks.specs.Index.{Ascending, Indexed, key};

use arena::Game;
use automaton::{Automaton, Move};

// The keys at the limits, and one more: where the moves end.
pub const KEYS: usize = Automaton::STATES * Automaton::LETTERS + 1;

// A game with the places where the keys of its moves begin.
#[derive(Clone, Copy)]
pub struct Index<'g, 'b> {
    pub game: Game<'g>,
    pub begins: &'b [usize],
    ghost indexed: { Indexed game.arena.states game.arena.letters game.moves.now begins.now },
}

impl<'g, 'b> Index<'g, 'b> {
    // The index of a game, written into lent places.
    pub fn filled(game: &Game<'g>, begins: &'b mut [usize]) -> Index<'g, 'b>
        requires formed { Formed (board game.now) }
        requires keys_have_places { KEYS ≤ length begins.old }
        ensures { result.game ≡ game.now }
    {
        fill(game.arena.states, game.arena.letters, game.moves, begins);
        Index {
            game: *game,
            begins,
        }
    }
}

// The key of move i.
fn key_of(letters: usize, moves: &[u8], i: usize) -> usize
    requires letters_le_most_letters { letters ≤ most_letters }
    requires move_in_moves { i * 3 + 2 < length moves.now }
    ensures { result ≡ key letters moves.now i }
{
    let Move { from, letter, .. } = Move::at(moves, i);
    from * letters + letter
}

// The first move from i on whose key is x or more, and the number of moves if there is none.
fn reach(letters: usize, moves: &[u8], i: usize, x: usize) -> usize
    requires letters_le_most_letters { letters ≤ most_letters }
    requires i_in_moves { i ≤ length moves.now / 3 }
    ensures { result ≡ first (λ j. leb x (key letters moves.now j)) i (length moves.now / 3 - i) }
{
    let count = moves.len() / 3;
    (i..count)
        .find(|j| x <= key_of(letters, moves, *j))
        .unwrap_or(count)
}

// Writes, for each key and for one past them, the first move that has it or a greater one.
pub fn fill(states: usize, letters: usize, moves: &[u8], begins: &mut [usize])
    requires few { (states ≤ most_states) × (letters ≤ most_letters) }
    requires keys_have_places { states * letters < length begins.old }
    requires ascending { Ascending letters moves.now }
    ensures { Indexed states letters moves.now begins.new }
{
    let keys = states * letters;
    let mut i = 0;
    for x in 0..keys + 1 {
        i = reach(letters, moves, i, x);
        begins[x] = i;
    }
}
