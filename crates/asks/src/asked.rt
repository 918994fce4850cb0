// The value that a position asks for: whose turn it is, which steps it has, and what follows from their entries.
ghost use Rattle.std.specs.Prelude.{◌≡◌, ◌<◌, length};
ghost use Rattle.games.specs.Game.{asked, at, highest};
ghost use Rattle.simulation.specs.Position.{duplicator, spoiler};
ghost use Rattle.simulation.specs.Rules.{turn};
ghost use Rattle.arena.specs.Game.{board, Playable, played};
ghost use Rattle.asks.specs.Asked.{asked_of, kind_in, onward};
ghost use Rattle.asks.specs.Pair.{Within};

use super::index::Index;
use super::pair::Pair;
use super::scan::{high, low};
use super::steps::{accepts, duplicator_steps, spoiler_steps};
use arena::Arena;
use automaton::Mode;

// How Spoiler's position asks.
#[derive(Clone, Copy)]
pub enum Turn {
    High,
    Counting,
    Resetting,
    Idle,
    Lost,
}

// Spoiler's turn, by b and by whether Red's and Blue's states accept.
fn turn_at(mode: Mode, b: usize, red: bool, blue: bool) -> Turn
    requires { b < 2 }
    ensures { kind_in result ≡ turn mode b red blue }
{
    match (mode, b, red, blue) {
        (Mode::Ordinary, ..) => Turn::High,
        (Mode::Direct, _, true, false) => Turn::Lost,
        (Mode::Direct, ..) => Turn::High,
        (Mode::Delayed, 0, ..) => Turn::Resetting,
        (Mode::Delayed, _, _, false) => Turn::Counting,
        (Mode::Delayed, _, _, true) => Turn::Idle,
        (Mode::Fair, _, _, true) => Turn::Resetting,
        (Mode::Fair, _, true, false) => Turn::Counting,
        (Mode::Fair, _, false, false) => Turn::High,
    }
}

// High at Spoiler's pair.
fn high_from(index: &Index, table: &[u32], pair: Pair) -> u32
    requires ready { Playable index.now.game table.now }
    requires pair_in_arena { Within index.now.game.arena pair }
    ensures { result ≡ highest (at table.now) (onward (board index.now.game) index.now.game.arena.mode (spoiler pair.bit pair.red pair.blue)) }
{
    high(spoiler_steps(index, pair), &index.game, table)
}

// What Spoiler's pair asks for.
fn spoiler_asks(index: &Index, table: &[u32], pair: Pair) -> u32
    requires ready { Playable index.now.game table.now }
    requires pair_in_arena { Within index.now.game.arena pair }
    ensures { result ≡ asked_of (board index.now.game) index.now.game.arena.mode table.now (spoiler pair.bit pair.red pair.blue) }
{
    let Arena { mode, top, .. } = index.game.arena;
    let marks = index.game.marks;
    let turn = turn_at(
        mode,
        pair.bit,
        accepts(marks, pair.red),
        accepts(marks, pair.blue),
    );
    match turn {
        Turn::Idle => 0,
        Turn::Lost => top,
        Turn::High => high_from(index, table, pair),
        Turn::Counting => {
            let h = high_from(index, table, pair);
            if h < top { h + 1 } else { top }
        }
        Turn::Resetting => {
            let h = high_from(index, table, pair);
            if h < top { 0 } else { top }
        }
    }
}

// What Duplicator's position of a pair and a letter asks for: Low.
fn duplicator_asks(index: &Index, table: &[u32], pair: Pair, a: usize) -> u32
    requires ready { Playable index.now.game table.now }
    requires pair_in_arena { Within index.now.game.arena pair }
    requires letter_in_arena { a < index.now.game.arena.letters }
    ensures { result ≡ asked_of (board index.now.game) index.now.game.arena.mode table.now (duplicator pair.bit pair.red pair.blue a) }
{
    low(duplicator_steps(index, pair, a), &index.game, table)
}

// What position v asks for.
pub fn asked(index: &Index, table: &[u32], v: usize) -> u32
    requires ready { Playable index.now.game table.now }
    requires v_in_bounds { v < length table.now }
    ensures { result ≡ asked (played index.now.game) (at table.now) v }
{
    let Arena {
        states,
        letters,
        pairs,
        ..
    } = index.game.arena;
    if v < pairs {
        return spoiler_asks(index, table, Pair::numbered(states, v));
    }
    let w = v - pairs;
    duplicator_asks(
        index,
        table,
        Pair::numbered(states, w / letters),
        w % letters,
    )
}
