// The relation of the calls held against that of `second`, on small automata, for the programs `trials` and `rests`.
#![tactic(auto)]

mod agree; // agree.rt: one automaton, reckoned both ways
mod draw; // draw.rt: marks and moves, by number or at random
mod every; // every.rt: all automata of a size, and many at random
mod text; // text.rt: an automaton as the text that the programs read

pub use agree::{ENTRIES, PAIRS, pairs_of, size_of};
pub use draw::{BYTES, Random, TRIPLES, moves_of};
pub use every::{all_moves, at_random};
pub use text::{Entries, Shown};
