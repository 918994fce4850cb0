// Reads Hanoi files and prints what the calls answered; the file `stdout` has what they should, as another reader gave it that was
// written from the rules alone.
#![tactic(auto)]

mod body_faults; // body_faults.rt: bodies that are refused
mod cuts; // cuts.rt: files cut short
mod head_faults; // head_faults.rt: headers that are refused
mod limits; // limits.rt: files of right form that are refused, and files at the limits
mod listed; // listed.rt: files in a list
mod reports; // reports.rt: what the relation programs print
mod tried; // tried.rt: one file read, and what is printed of it
mod writers; // writers.rt: files that are read

use std::io;

fn main(rt: HostRuntime) -> io::Result<()> {
    writers::run(&rt)?;
    head_faults::run(&rt)?;
    body_faults::run(&rt)?;
    limits::run(&rt)?;
    cuts::run(&rt)?;
    reports::run(&rt)
}
