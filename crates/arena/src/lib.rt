// The numbers of one automaton's game in one mode: P, T and the arena, in which the calls on a table work.
// Refusals 1 to 9, which those calls share, are decided here.
#![tactic(auto)]

ghost use Rattle.std.specs.Prelude.{◌≡◌, true, [], ◌+◌, ◌*◌, ◌≤◌, eqb, length, get_or};
ghost use Rattle.games.specs.Play.{count};
ghost use Rattle.automaton.specs.Answer.{answered, valued};
ghost use Rattle.automaton.specs.Board.{board_of};
ghost use Rattle.automaton.specs.Limits.{most_letters, most_states};
ghost use Rattle.simulation.specs.Position.{layers, pairs};
ghost use Rattle.simulation.specs.Rules.{bit, ceiling, eased, owed, pended};
ghost use Rattle.arena.specs.Arena.{entered, fitted, opened};
ghost use Rattle.arena.specs.Refusals.{sizing, topping};

mod game; // game.rt: an arena with the lent bytes
mod job; // job.rt: what a call is about
mod seating; // seating.rt: where pairs of states have their entries in a table

use automaton::{Automaton, Mode, Refusal};
pub use game::Game;
pub use job::Job;
pub use seating::Seating;

// What the work at every position needs: the automaton's numbers, the number of Spoiler's positions, and T.
#[derive(Clone, Copy)]
pub struct Arena {
    pub states: usize,
    pub letters: usize,
    pub mode: Mode,
    pub pairs: usize,
    pub top: u32,
}

// P, the number of entries of a table for this automaton and mode. Refusals 1, 2 and 8.
pub fn positions(a: Automaton, mode: usize) -> Result<usize, Refusal>
    ensures { answered valued result ≡ sizing a mode }
{
    automaton::limits(a)?;
    let pairs = pairs_of(a, Mode::try_from(mode)?);
    Ok(size(pairs, a.letters))
}

// T, the largest entry allowed, which means lost. Refusals 1 to 8.
pub fn ceiling(job: &Job) -> Result<usize, Refusal>
    ensures { answered valued result ≡ topping job.now }
{
    let g = enter(job)?;
    Ok(g.top as usize)
}

// The bit b with which a pair begins, by whether Red's and Blue's states accept.
pub fn owed(mode: Mode, red: bool, blue: bool) -> usize
    ensures { result ≡ owed mode red blue }
{
    match mode {
        Mode::Delayed => usize::from(red && !blue),
        Mode::Ordinary | Mode::Direct | Mode::Fair => 0,
    }
}

// The bit b after Red's move to an accepting state.
pub fn pended(mode: Mode, b: usize) -> usize
    ensures { result ≡ pended mode true b }
{
    match mode {
        Mode::Delayed => 1,
        Mode::Ordinary | Mode::Direct | Mode::Fair => b,
    }
}

// The bit b after Blue's move to a state that accepts or does not.
pub fn eased(mode: Mode, accepting: bool, b: usize) -> usize
    ensures { result ≡ eased mode accepting b }
{
    match mode {
        Mode::Delayed if accepting => 0,
        Mode::Ordinary | Mode::Direct | Mode::Delayed | Mode::Fair => b,
    }
}

// How many values b has.
pub fn layers_of(mode: Mode) -> usize
    ensures { result ≡ layers mode }
{
    match mode {
        Mode::Delayed => 2,
        Mode::Ordinary | Mode::Direct | Mode::Fair => 1,
    }
}

// The number of Spoiler's positions.
fn pairs_of(a: Automaton, mode: Mode) -> usize
    requires { a.states ≤ most_states }
    ensures { result ≡ pairs (board_of a [] []) mode }
{
    let states = a.states;
    layers_of(mode) * (states * states)
}

// P, the number of positions, by that of Spoiler's.
fn size(pairs: usize, letters: usize) -> usize
    requires pairs_bound { pairs ≤ 8192 }
    requires letters_le_most_letters { letters ≤ most_letters }
    ensures { result ≡ pairs * (1 + letters) }
{
    pairs * (1 + letters)
}

// The number of accepting states.
fn ones(marks: &[u8]) -> usize
    ensures { result ≡ count (λ q. bit (eqb (get_or marks.now q 0) 1)) (length marks.now) }
{
    marks.iter().filter(|mark| **mark == 1).count()
}

// T, the largest entry allowed.
fn top(a: Automaton, marks: &[u8], mode: Mode) -> u32
    requires states_le_most_states { a.states ≤ most_states }
    requires marks_len { length marks.now ≡ a.states }
    ensures { result ≡ ceiling (board_of a marks.now []) mode }
{
    let states = a.states;
    let f = ones(marks);
    match mode {
        Mode::Ordinary | Mode::Direct => 1,
        Mode::Delayed => (states * (states - f) + 1) as u32,
        Mode::Fair => (f * (states - f) + 1) as u32,
    }
}

// The arena of an automaton and a mode. Refusals 1 to 8.
pub fn enter(job: &Job) -> Result<Arena, Refusal>
    ensures { result ≡ entered job.now }
{
    let a = job.automaton;
    automaton::check(a, job.marks, job.moves)?;
    let mode = Mode::try_from(job.mode)?;
    Ok(Arena {
        states: a.states,
        letters: a.letters,
        mode,
        pairs: pairs_of(a, mode),
        top: top(a, job.marks, mode),
    })
}

// The arena, if a table of so many entries fits it. Refusal 9.
pub fn fit(g: Arena, entries: usize) -> Result<Arena, Refusal>
    requires pairs_bound { g.pairs ≤ 8192 }
    requires letters_le_most_letters { g.letters ≤ most_letters }
    ensures { result ≡ fitted g entries }
{
    if entries != size(g.pairs, g.letters) {
        return Err(Refusal::TableLength);
    }
    Ok(g)
}

// The arena for a table of so many entries. Refusals 1 to 9.
pub fn for_table(job: &Job, entries: usize) -> Result<Arena, Refusal>
    ensures { result ≡ opened job.now entries }
{
    let g = enter(job)?;
    fit(g, entries)
}
