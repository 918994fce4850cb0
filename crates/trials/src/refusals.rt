// Every refusal that the calls on an automaton can give. A row for each call: under each refusal's number, the number and the place that the call gave, first for
// the job with that fault alone, then for the one with all later faults too.
use super::jobs::Faults;
use super::told::Told;
use arena::Job;
use std::{fmt, io};

// The number of refusals.
const REFUSALS: usize = 17;

// The outputs, and what they hold before a call.
#[derive(Clone, Copy, PartialEq, Eq)]
struct Outputs {
    pairs: [u8; 6],
    classes: [u8; 6],
    classmarks: [u8; 6],
    classmoves: [u8; 6],
}

const UNWRITTEN: Outputs = Outputs {
    pairs: [7; 6],
    classes: [7; 6],
    classmarks: [7; 6],
    classmoves: [7; 6],
};

#[derive(Clone, Copy)]
enum Call {
    Limits,
    Check,
    Positions,
    Ceiling,
    ForTable,
    Clear,
    Settle,
    Lift,
    Rest,
    Relation,
    Reply,
    Quotient,
}

impl fmt::Display for Call {
    fn fmt<W: fmt::Write>(&self, f: &mut fmt::Formatter<W>) -> fmt::Result {
        f.write_str(match self {
            Call::Limits => "limits",
            Call::Check => "check",
            Call::Positions => "positions",
            Call::Ceiling => "ceiling",
            Call::ForTable => "for_table",
            Call::Clear => "clear",
            Call::Settle => "settle",
            Call::Lift => "lift",
            Call::Rest => "rest",
            Call::Relation => "relation",
            Call::Reply => "reply",
            Call::Quotient => "quotient",
        })
    }
}

impl Call {
    const ALL: [Call; 12] = [
        Call::Limits,
        Call::Check,
        Call::Positions,
        Call::Ceiling,
        Call::ForTable,
        Call::Clear,
        Call::Settle,
        Call::Lift,
        Call::Rest,
        Call::Relation,
        Call::Reply,
        Call::Quotient,
    ];

    // Makes the call on a job and a table with these faults: what it answered, and the outputs after it.
    fn make(self, faults: Faults, job: &Job, table: &mut [u32]) -> (Told, Outputs) {
        let a = job.automaton;
        let position = faults.position();
        let short = faults.short();
        let mut outputs = UNWRITTEN;
        let told = match self {
            Call::Limits => Told::of(automaton::limits(a)),
            Call::Check => Told::of(automaton::check(a, job.marks, job.moves)),
            Call::Positions => Told::of(arena::positions(a, job.mode)),
            Call::Ceiling => Told::of(arena::ceiling(job)),
            Call::ForTable => Told::of(arena::for_table(job, table.len())),
            Call::Clear => Told::of(table::clear(job, table)),
            Call::Settle => Told::of(table::settle(job, table)),
            Call::Lift => Told::of(table::lift(job, table, position)),
            Call::Rest => Told::of_rest(table::rest(job, table)),
            Call::Relation => Told::of(relation::relation(
                job,
                table,
                &mut outputs.pairs[..4 - short],
            )),
            Call::Reply => Told::of(relation::reply(job, table, position)),
            Call::Quotient => Told::of(quotient::quotient(
                job,
                table,
                &mut outputs.classes[..2 - short],
                &mut outputs.classmarks[..2 - short],
                &mut outputs.classmoves[..faults.bytes() - short],
            )),
        };
        (told, outputs)
    }

    // Makes the call on the job with these faults: what it answered, and whether it was refused and wrote something.
    fn tried(self, faults: Faults) -> (Told, bool) {
        let marks = faults.marks();
        let moves = faults.moves();
        let job = Job {
            automaton: faults.automaton(),
            marks: &marks,
            moves: &moves[..faults.bytes()],
            mode: faults.mode(),
        };
        let lent = faults.table();
        let mut entries = lent;
        let (told, outputs) = self.make(faults, &job, &mut entries[..faults.entries()]);
        let wrote = told.number != 0 && (entries != lent || outputs != UNWRITTEN);
        (told, wrote)
    }
}

// Prints a call's row, with all later faults too if `later` says so: how many times it was refused and wrote something.
fn row(rt: &impl Print, call: Call, later: bool) -> io::Result<usize> {
    let mut written = 0usize;
    print!(rt; "{call}")?;
    for number in 1..=REFUSALS {
        let last = if later { REFUSALS } else { number };
        let (told, wrote) = call.tried(Faults {
            first: number,
            last,
        });
        print!(rt; "\t{told}")?;
        written = written.saturating_add(usize::from(wrote));
    }
    println!(rt)?;
    Ok(written)
}

// Prints the rows of all calls.
fn rows(rt: &impl Print, later: bool) -> io::Result<usize> {
    let mut written = 0usize;
    for call in Call::ALL {
        written = written.saturating_add(row(rt, call, later)?);
    }
    Ok(written)
}

pub fn run(rt: &impl Print) -> io::Result<()> {
    println!(rt; "refusals, number and place: each fault alone")?;
    let alone = rows(rt, false)?;
    println!(rt; "refusals, number and place: each fault with all later ones")?;
    let later = rows(rt, true)?;
    println!(rt; "refused calls that wrote\t{}", alone.saturating_add(later))
}
