// What a table at rest tells, pair by pair and move by move: the byte of each pair of states, and Blue's best move.
// It stands below the calls, since nothing here refuses or asks whether the table is at rest.
#![tactic(auto)]

pub mod best; // best.rt: Blue's best move
pub mod pairs; // pairs.rt: the bytes of the relation
