// The automaton and the mode that a call is about.
ghost use Rattle.arena.specs.Job.{Job, job_of};

use automaton::Automaton;
use std::marker::Model;

// An automaton with the marks and the moves lent for it, and the number of a mode.
#[derive(Drop)]
pub struct Job<'a> {
    pub automaton: Automaton,
    pub marks: &'a [u8],
    pub moves: &'a [u8],
    pub mode: usize,
}

impl<'a> Model for Job<'a> {
    ghost Value = { Job };

    ghost view = { λ j. job_of j.automaton j.marks.now j.moves.now j.mode };
}
