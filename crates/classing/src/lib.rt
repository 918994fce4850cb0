// The classes of a table's equal states, and the marks and moves of the automaton that they make up.
// It stands by itself: it reads a table and does not settle one, so it builds on neither `table` nor what settles it.
#![tactic(auto)]

pub mod classes; // classes.rt: which states are equal, and the number of each one's class
pub mod written; // written.rt: the marks and the moves of the classes
