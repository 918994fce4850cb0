// What a position of an arena asks for, worked out from the moves and the entries one step on.
// It stands by itself: `lift` and `rest` build on it, and `settle`, which goes by half-rounds, does not.
#![tactic(auto)]

pub mod asked; // asked.rt: the value that a position asks for
pub mod index; // index.rt: where the moves of each state and letter begin
pub mod pair; // pair.rt: a pair's positions by their parts
mod scan; // scan.rt: High and Low
mod steps; // steps.rt: the positions one step on
