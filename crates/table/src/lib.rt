// The calls on a lent table: `clear`, `lift`, `rest` and `settle`. `arena::positions` and `arena::ceiling` give its length and T.
// Each call first decides whether to refuse, and writes nothing if it does.
#![tactic(auto)]

ghost use Rattle.std.specs.Prelude.{◌≡◌};
ghost use Rattle.games.specs.Settle.{settle};
ghost use Rattle.automaton.specs.Answer.{answered, done, valued};
ghost use Rattle.arena.specs.Game.{Playable, played};
ghost use Rattle.table.specs.Answers.{found, rose};
ghost use Rattle.table.specs.Calls.{clearing, lifted, lifting, rested, resting, settling};

use arena::{Game, Job};
use asks::index::{Index, KEYS};
use automaton::Refusal;

// Fills the table with 0. Refusals 1 to 9.
pub fn clear(job: &Job, table: &mut [u32]) -> Result<(), Refusal>
    ensures result_value { answered done result ≡ (clearing job.now table.old).answer }
    ensures table_after { table.new ≡ (clearing job.now table.old).left }
{
    let game = Game::for_table(job, table.len())?;
    entries::clear(table, game.arena.pairs);
    Ok(())
}

// Lifts one position: whether its entry rose. No other entry changes. Refusals 1 to 11.
pub fn lift(job: &Job, table: &mut [u32], position: usize) -> Result<bool, Refusal>
    ensures result_value { answered rose result ≡ (lifting job.now table.old position).answer }
    ensures table_after { table.new ≡ (lifting job.now table.old position).left }
{
    let game = Game::for_table(job, table.len())?;
    lift_in(&game, table, position)
}

// The lift in an arena: refusals 10 and 11, then the work.
fn lift_in(game: &Game, table: &mut [u32], position: usize) -> Result<bool, Refusal>
    requires { Playable game.now table.old }
    ensures result_value { answered rose result ≡ (lifted (played game.now) table.old position).answer }
    ensures table_after { table.new ≡ (lifted (played game.now) table.old position).left }
{
    if let Some(above) = entries::first_above(&table[..], game.arena.top) {
        return Err(Refusal::AboveCeiling(above));
    }
    if table.len() <= position {
        return Err(Refusal::PositionNumber);
    }
    let mut begins = [0usize; KEYS];
    let index = Index::filled(game, &mut begins[..]);
    Ok(entries::lift(&index, table, position))
}

// The lowest position that is not at rest, or none if the table is. Refusals 1 to 10.
pub fn rest(job: &Job, table: &[u32]) -> Result<Option<usize>, Refusal>
    ensures { answered found result ≡ resting job.now table.now }
{
    let game = Game::for_table(job, table.len())?;
    rest_in(&game, table)
}

// The test of rest in an arena: refusal 10, then the work.
fn rest_in(game: &Game, table: &[u32]) -> Result<Option<usize>, Refusal>
    requires { Playable game.now table.now }
    ensures { answered found result ≡ rested (played game.now) table.now }
{
    if let Some(above) = entries::first_above(table, game.arena.top) {
        return Err(Refusal::AboveCeiling(above));
    }
    let mut begins = [0usize; KEYS];
    let index = Index::filled(game, &mut begins[..]);
    Ok(entries::first_restless(&index, table))
}

// Clears the table and sweeps it until a whole sweep raises nothing: the number of raises. Refusals 1 to 9.
pub fn settle(job: &Job, table: &mut [u32]) -> Result<usize, Refusal>
    ensures result_value { answered valued result ≡ (settling job.now table.old).answer }
    ensures table_after { table.new ≡ (settling job.now table.old).left }
{
    let game = Game::for_table(job, table.len())?;
    Ok(settle_in(&game, table))
}

// The settle in an arena: clear, then the sweeps, half by half.
fn settle_in(game: &Game, table: &mut [u32]) -> usize
    requires { Playable game.now table.old }
    ensures value { result ≡ (settle (played game.now)).raised }
    ensures table_after { table.new ≡ (settle (played game.now)).table }
{
    entries::clear(table, game.arena.pairs);
    rounds::settle(game, table)
}
