// The game that the work at a position is about.
ghost use Rattle.arena.specs.Game.{Opens};

use crate::{Arena, Job};
use automaton::Refusal;

// An arena with the marks and the moves lent for it.
#[derive(Clone, Copy)]
pub struct Game<'a> {
    pub arena: Arena,
    pub marks: &'a [u8],
    pub moves: &'a [u8],
}

impl<'a> Game<'a> {
    // The game of a job, for a table of so many entries. Refusals 1 to 9.
    pub fn for_table(job: &Job<'a>, entries: usize) -> Result<Game<'a>, Refusal>
        ensures { Opens job.now entries result }
    {
        let arena = crate::for_table(job, entries)?;
        Ok(Game {
            arena,
            marks: job.marks,
            moves: job.moves,
        })
    }
}
