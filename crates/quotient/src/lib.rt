// The quotient of an automaton: states that are related to each other both ways become one class.
// The call first decides whether to refuse, and writes nothing if it does.
#![tactic(auto)]

ghost use Rattle.std.specs.Prelude.{◌≡◌, ◌<◌, length};
ghost use Rattle.automaton.specs.Answer.{answered};
ghost use Rattle.arena.specs.Game.{board, Playable};
ghost use Rattle.quotient.specs.Admitted.{admitted};
ghost use Rattle.quotient.specs.Answers.{merged};
ghost use Rattle.quotient.specs.Calls.{buffers, merges, merging, quotienting};

use arena::{Arena, Game, Job, Seating};
use automaton::{Mode, Refusal, wide};

// How many classes and moves a quotient has, and the start's class.
#[derive(Clone, Copy)]
pub struct Counts {
    pub classes: usize,
    pub moves: usize,
    pub start: usize,
}

// Settles the table and merges the states that it calls equal. Written are the class of each state, a mark for each class,
// and the moves between classes, sorted and each once; unused bytes are 255. Refusals 1 to 8, then 17, 9 and 16.
pub fn quotient(
    job: &Job,
    table: &mut [u32],
    classes: &mut [u8],
    classmarks: &mut [u8],
    classmoves: &mut [u8],
) -> Result<Counts, Refusal>
    ensures result_value { answered merged result ≡ (quotienting job.now (buffers table.old classes.old classmarks.old classmoves.old)).answer }
    ensures buffers_after { buffers table.new classes.new classmarks.new classmoves.new ≡ (quotienting job.now (buffers table.old classes.old classmarks.old classmoves.old)).left }
{
    let arena = admit(job, table.len())?;
    let states = arena.states;
    if classes.len() != states
        || classmarks.len() != states
        || classmoves.len() != job.moves.len()
    {
        return Err(Refusal::OutputLength);
    }
    // it refuses nothing that is not refused above
    let _ = table::settle(job, table);
    let game = Game {
        arena,
        marks: job.marks,
        moves: job.moves,
    };
    let start = job.automaton.start;
    Ok(merge(&game, start, table, classes, classmarks, classmoves))
}

// Are quotients formed in this mode? In the others they would not keep the language.
fn merges(mode: Mode) -> bool
    ensures { result ≡ merges mode }
{
    matches!(mode, Mode::Direct | Mode::Delayed)
}

// The arena of a quotient, for a table of so many entries. Refusals 1 to 8, then 17 and 9.
fn admit(job: &Job, entries: usize) -> Result<Arena, Refusal>
    ensures { result ≡ admitted job.now entries }
{
    let g = arena::enter(job)?;
    if !merges(g.mode) {
        return Err(Refusal::WrongMode);
    }
    arena::fit(g, entries)
}

// Writes the quotient by a table, in an arena.
fn merge(
    game: &Game,
    start: usize,
    table: &[u32],
    classes: &mut [u8],
    classmarks: &mut [u8],
    classmoves: &mut [u8],
) -> Counts
    requires playable { Playable game.now table.now }
    requires is_state { start < game.now.arena.states }
    requires sized { (length classes.old ≡ game.now.arena.states) × (length classmarks.old ≡ game.now.arena.states) × (length classmoves.old ≡ length game.now.moves.now) }
    ensures result_value { merged result ≡ (merging (board game.now) game.now.arena.mode start table.now).answer }
    ensures buffers_after { buffers table.now classes.new classmarks.new classmoves.new ≡ (merging (board game.now) game.now.arena.mode start table.now).left }
{
    let states = game.arena.states;
    let letters = game.arena.letters;
    let moves = game.moves;
    let seats = Seating {
        arena: game.arena,
        marks: game.marks,
        table,
    };
    let count = classing::classes::number(&seats, classes);
    classing::written::fill_marks(count, game.marks, classes, classmarks);
    let mut seen = [0u8; triples::TRIPLES];
    classing::written::mark_images(states, letters, classes, moves, &mut seen);
    let bytes = triples::write_moves(states, letters, &seen, classmoves);
    classing::written::leave_unused(&mut classmoves[bytes..]);
    Counts {
        classes: count,
        moves: bytes / 3,
        start: wide(classes[start]),
    }
}
