// Blue's best move: one pass over the moves, which keeps only the best so far.
ghost use Rattle.std.specs.Prelude.{◌≡◌, ◌<◌};
ghost use Rattle.simulation.specs.Answers.{entry_after};
ghost use Rattle.simulation.specs.Moves.{targets};
ghost use Rattle.simulation.specs.Position.{layers};
ghost use Rattle.arena.specs.Game.{board, Playable};
ghost use Rattle.arena.specs.Seats.{bare, Seated};
ghost use Rattle.verdicts.specs.Best.{best_of, improved};

use arena::Game;
use automaton::Move;

// A move of Blue's: the state that it leads to, and the entry there.
#[derive(Clone, Copy)]
pub struct Best {
    pub state: usize,
    pub entry: u32,
}

// The best after one more move. An earlier move stays if its entry is as small.
fn improve(best: Option<Best>, state: usize, entry: u32) -> Best
    ensures { result ≡ improved best state entry }
{
    match best {
        Some(held) if held.entry <= entry => held,
        _ => Best { state, entry },
    }
}

// The entry where Blue's move to the state s leads, Red standing on q.
fn entry_after(game: &Game, table: &[u32], b: usize, q: usize, s: usize) -> u32
    requires seated { Seated game.now.arena game.now.marks.now table.now }
    requires position { (b < layers game.now.arena.mode) × (q < game.now.arena.states) × (s < game.now.arena.states) }
    ensures { result ≡ entry_after (bare game.now.arena game.now.marks.now) game.now.arena.mode table.now b q s }
{
    let states = game.arena.states;
    let bit = arena::eased(game.arena.mode, game.marks[s] == 1, b);
    table[bit * (states * states) + q * states + s]
}

// The best of the moves from r by the letter a.
pub fn scan(game: &Game, table: &[u32], b: usize, q: usize, r: usize, a: usize) -> Option<Best>
    requires playable { Playable game.now table.now }
    requires position { (b < layers game.now.arena.mode) × (q < game.now.arena.states) }
    ensures { result ≡ best_of (entry_after (board game.now) game.now.arena.mode table.now b q) None (targets (board game.now) r a) }
{
    let mut best = None;
    for i in 0..game.moves.len() / 3 {
        let Move { from, letter, to } = Move::at(game.moves, i);
        if (from, letter) == (r, a) {
            best = Some(improve(best, to, entry_after(game, table, b, q, to)));
        }
    }
    best
}
