// One line of the text of an automaton: what it says, and where the next begins.
// It stands by itself because the functions above need no more of it than the line at a place.
#![tactic(auto)]

pub mod line; // line.rt: one line and what it says
pub mod reader; // reader.rt: the text and the place to which it is read
mod scan; // scan.rt: where a byte stands
