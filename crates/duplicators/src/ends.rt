// Duplicator's dead ends: positions without a step, which ask for T.
ghost use Rattle.std.specs.Prelude.{◌*◌, ◌≤◌, ◌<◌, length};
ghost use Rattle.simulation.specs.Position.{layers};
ghost use Rattle.arena.specs.Game.{board, Playable};
ghost use Rattle.halves.specs.Drawn.{Accepting, Onto};
ghost use Rattle.halves.specs.Rising.{Spacious};
ghost use Rattle.levels.specs.Candidates.{AllIn};
ghost use Rattle.levels.specs.Lows.{AllWithin};
ghost use Rattle.duplicators.specs.Ends.{AllDead, Dead, EachFound, LayerFound};
ghost use Rattle.duplicators.specs.Growing.{AnsweredIn, growing};
ghost use Rattle.duplicators.specs.Rows.{AllEnded};

use super::raising::raise_all;
use super::scans::Scan;
use super::seats::Row;
use arena::Game;
use automaton::Automaton;

// The states without a move by one letter.
fn dead_letter(n: usize, k: usize, onto: &[u64], a: usize) -> u64
    requires numbers_fit { (n ≤ 64) × (k ≤ 16) × (a < k) }
    requires onto_whole { n * k ≤ length onto.now }
    ensures { Dead onto.now k a n result }
{
    let mut dead = 0u64;
    for r in 0..n {
        if onto[r * k + a] == 0 {
            dead = words::with(dead, r);
        }
    }
    dead
}

// The states without a move by each letter: word a of `found` holds those. All of them, in one set.
fn dead_letters(n: usize, k: usize, onto: &[u64], found: &mut [u64]) -> u64
    requires numbers_fit { (n ≤ 64) × (k ≤ 16) }
    requires onto_whole { n * k ≤ length onto.now }
    requires found_has_room { k ≤ length found.old }
    ensures all_dead { AllDead onto.now k n found.new }
    ensures all_in { AllIn k found.new result }
{
    let mut any = 0u64;
    for (a, word) in found[..k].iter_mut().enumerate() {
        *word = dead_letter(n, k, onto, a);
        any = words::join(any, *word);
    }
    any
}

// Raises the candidates in every row of a layer: how many rose.
fn end_layer(
    game: &Game,
    scan: &Scan,
    b: usize,
    found: &[u64],
    table: &mut [u32],
    grown: &mut [u64],
    columns: &mut [u64],
) -> usize
    requires ready { Playable game.now table.old }
    requires accepting { Accepting (board game.now) scan.now.acc }
    requires onto { Onto (board game.now) scan.now.onto.now }
    requires spacious { Spacious (board game.now) game.now.arena.mode grown.old columns.old }
    requires b_bound { b < layers game.now.arena.mode }
    requires found_within { (game.now.arena.letters ≤ length found.now) × AllWithin game.now.arena.letters game.now.arena.states found.now }
    ensures answered_in { AnsweredIn game.now (growing table.old grown.old columns.old) (growing table.new grown.new columns.new) result }
    ensures layer_found { LayerFound (board game.now) game.now.arena.mode table.new b found.now }
{
    let mut count = 0;
    for q in 0..game.arena.states {
        let w = Row::of(game.arena, b, q);
        count += raise_all(game, scan, w, found, table, grown, columns);
    }
    count
}

// The same in every layer.
fn end_layers(
    game: &Game,
    scan: &Scan,
    found: &[u64],
    table: &mut [u32],
    grown: &mut [u64],
    columns: &mut [u64],
) -> usize
    requires ready { Playable game.now table.old }
    requires accepting { Accepting (board game.now) scan.now.acc }
    requires onto { Onto (board game.now) scan.now.onto.now }
    requires spacious { Spacious (board game.now) game.now.arena.mode grown.old columns.old }
    requires found_within { (game.now.arena.letters ≤ length found.now) × AllWithin game.now.arena.letters game.now.arena.states found.now }
    ensures answered_in { AnsweredIn game.now (growing table.old grown.old columns.old) (growing table.new grown.new columns.new) result }
    ensures each_found { EachFound (board game.now) game.now.arena.mode table.new found.now }
{
    let mut count = 0;
    for b in 0..arena::layers_of(game.arena.mode) {
        count += end_layer(game, scan, b, found, table, grown, columns);
    }
    count
}

// Duplicator's dead ends are raised, in every row: how many rose.
pub fn dead_ends(
    game: &Game,
    acc: u64,
    onto: &[u64],
    table: &mut [u32],
    grown: &mut [u64],
    columns: &mut [u64],
) -> usize
    requires ready { Playable game.now table.old }
    requires accepting { Accepting (board game.now) acc }
    requires onto { Onto (board game.now) onto.now }
    requires spacious { Spacious (board game.now) game.now.arena.mode grown.old columns.old }
    ensures answered_in { AnsweredIn game.now (growing table.old grown.old columns.old) (growing table.new grown.new columns.new) result }
    ensures all_ended { AllEnded (board game.now) game.now.arena.mode table.new }
{
    let mut found = [0u64; Automaton::LETTERS];
    let any = dead_letters(game.arena.states, game.arena.letters, onto, &mut found);
    if any == 0 {
        return 0;
    }
    let scan = Scan { acc, onto };
    end_layers(game, &scan, &found, table, grown, columns)
}
