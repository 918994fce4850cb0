// Reads short texts and prints what the calls answered; the file `stdout` has what they should, worked out from document 01.
#![tactic(auto)]

mod accepted; // accepted.rt: texts that are read
mod numbers; // numbers.rt: texts of right form that are refused, by the number
mod reports; // reports.rt: what the relation program prints
mod shape; // shape.rt: texts that are too long, or of wrong form or order
mod tried; // tried.rt: one text read, and what is printed of it

use std::io;

fn main(rt: HostRuntime) -> io::Result<()> {
    shape::run(&rt)?;
    numbers::run(&rt)?;
    accepted::run(&rt)?;
    reports::run(&rt)
}
