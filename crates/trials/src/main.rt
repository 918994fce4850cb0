// Runs the calls and prints what they answered; the file `stdout` has what they should. A difference is printed with its automaton.
#![tactic(auto)]

mod cases; // cases.rt: document 01's cases that are not proved
mod jobs; // jobs.rt: a job for the calls with chosen faults
mod refusals; // refusals.rt: every refusal of every call
mod told; // told.rt: the number and the place of each answer

use std::io;

// Prints how many automata have the relation that `second` reckons: all of small sizes, and many at random.
fn agreed(rt: &impl Print) -> io::Result<()> {
    for (size, states, letters, sets) in [
        ("1 state, 1 letter", 1, 1, 2),
        ("2 states, 1 letter", 2, 1, 16),
        ("3 states, 1 letter", 3, 1, 512),
        ("2 states, 2 letters", 2, 2, 256),
        ("4 states, 1 letter", 4, 1, 65536),
    ] {
        let count = compare::all_moves(rt, states, letters, 0..sets)?;
        println!(rt; "agreed: all of {size}\t{count}")?;
    }
    let count = compare::at_random(rt, 88172645463325252, 10000)?;
    println!(rt; "agreed: drawn, up to 8 states and 4 letters\t{count}")
}

fn main(rt: HostRuntime) -> io::Result<()> {
    cases::run(&rt)?;
    refusals::run(&rt)?;
    agreed(&rt)
}
