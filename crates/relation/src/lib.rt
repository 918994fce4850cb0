// The calls that read a table at rest: `relation` and `reply`.
// Each call first decides whether to refuse, and writes nothing if it does.
#![tactic(auto)]

ghost use Rattle.std.specs.Prelude.{◌≡◌, ◌<◌, length};
ghost use Rattle.automaton.specs.Answer.{answered, valued};
ghost use Rattle.simulation.specs.Answers.{reply_at};
ghost use Rattle.arena.specs.Game.{board, Playable};
ghost use Rattle.relation.specs.Calls.{relating, replying};

use arena::{Game, Job, Seating};
use automaton::Refusal;

// Writes a byte for each pair of states, 1 if the table calls it related: the number of ones. Refusals 1 to 10, 12 and 16.
pub fn relation(job: &Job, table: &[u32], out: &mut [u8]) -> Result<usize, Refusal>
    ensures result_value { answered valued result ≡ (relating job.now table.now out.old).answer }
    ensures out_after { out.new ≡ (relating job.now table.now out.old).left }
{
    let game = Game::for_table(job, table.len())?;
    if let Some(lowest) = table::rest(job, table)? {
        return Err(Refusal::NotAtRest(lowest));
    }
    let states = game.arena.states;
    if out.len() != states * states {
        return Err(Refusal::OutputLength);
    }
    let seats = Seating {
        arena: game.arena,
        marks: game.marks,
        table,
    };
    Ok(verdicts::pairs::fill(&seats, out))
}

// Blue's reply at a Duplicator's position that is not lost: the lowest numbered state among the moves to the least entry. Refusals 1 to 15.
pub fn reply(job: &Job, table: &[u32], position: usize) -> Result<usize, Refusal>
    ensures { answered valued result ≡ replying job.now table.now position }
{
    let game = Game::for_table(job, table.len())?;
    let restless = table::rest(job, table)?;
    if table.len() <= position {
        return Err(Refusal::PositionNumber);
    }
    match restless {
        Some(lowest) => Err(Refusal::NotAtRest(lowest)),
        None => reply_at(&game, table, position),
    }
}

// The reply at one of the positions: refusals 13 to 15, then the best move.
fn reply_at(game: &Game, table: &[u32], position: usize) -> Result<usize, Refusal>
    requires playable { Playable game.now table.now }
    requires position_in_bounds { position < length table.now }
    ensures { answered valued result ≡ reply_at (board game.now) game.now.arena.mode table.now position }
{
    let g = game.arena;
    if position < g.pairs {
        return Err(Refusal::SpoilerPosition);
    }
    if g.top <= table[position] {
        return Err(Refusal::LostPosition);
    }
    // the parts of Duplicator's position, by its number
    let w = position - g.pairs;
    let u = w / g.letters;
    let p = u / g.states;
    let b = p / g.states;
    let q = p % g.states;
    let Some(best) = verdicts::best::scan(game, table, b, q, u % g.states, w % g.letters) else {
        return Err(Refusal::NoMove);
    };
    Ok(best.state)
}
