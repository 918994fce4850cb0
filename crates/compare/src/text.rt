// An automaton as the text that the programs read, so that a case can be run again.
use arena::Job;
use automaton::Automaton;
use std::fmt;

// A job: its automaton and its mode.
#[derive(Clone, Copy)]
pub struct Shown<'a>(pub &'a Job<'a>);

impl fmt::Display for Shown<'_> {
    fn fmt<W: fmt::Write>(&self, f: &mut fmt::Formatter<W>) -> fmt::Result {
        let job = self.0;
        let Automaton {
            states,
            letters,
            start,
        } = job.automaton;
        let mode = job.mode;
        writeln!(f, "automaton\t{states}\t{letters}\t{start}\nmode\t{mode}")?;
        for (q, mark) in job.marks.iter().enumerate() {
            if *mark == 1 {
                writeln!(f, "accept\t{q}")?;
            }
        }
        for triple in job.moves.chunks_exact(3) {
            if let [from, letter, to] = triple {
                writeln!(f, "move\t{from}\t{letter}\t{to}")?;
            }
        }
        Ok(())
    }
}

// The entries of a table, in a line.
#[derive(Clone, Copy)]
pub struct Entries<'a>(pub &'a [u32]);

impl fmt::Display for Entries<'_> {
    fn fmt<W: fmt::Write>(&self, f: &mut fmt::Formatter<W>) -> fmt::Result {
        write!(f, "table")?;
        for entry in self.0 {
            write!(f, "\t{entry}")?;
        }
        writeln!(f)
    }
}
