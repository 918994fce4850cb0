// The levels and the candidates of a row of Duplicator's positions. They speak of words and entries alone, and so are proved without automaton and arena.
#![tactic(auto)]

pub mod candidates;
pub mod row;
