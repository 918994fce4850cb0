// What Duplicator's half reads besides the table: the game, and what Spoiler's half has noted.
ghost use Rattle.std.specs.Prelude.{◌≡◌};

use super::scans::Scan;
use arena::Game;

// A game with its accepting states and its moves, drawn as sets.
#[derive(Clone, Copy)]
pub struct Drawn<'g, 's> {
    pub game: Game<'g>,
    pub acc: u64,
    pub into: &'s [u64],
    pub onto: &'s [u64],
}

impl<'g, 's> Drawn<'g, 's> {
    // Telling by scans of the steps.
    pub fn scan(&self) -> Scan<'s>
        ensures { (result.acc ≡ self.now.acc) × (result.onto ≡ self.now.onto) }
    {
        Scan {
            acc: self.acc,
            onto: self.onto,
        }
    }
}

// The rows' words of states whose entries have risen, the rows that have one, and the rows' least old entries.
#[derive(Clone, Copy)]
pub struct Notes<'n> {
    pub risen: &'n [u64],
    pub rows: &'n [u64],
    pub olds: &'n [u32],
}
