// A job for the calls: automaton A of document 01 in mode 2 with its settled table, and the faults of some of the refusals, each by
// its number. With the fault of refusal 17 it is a job in mode 0, where the settled table has eight entries of 0. Nothing makes
// refusal 15: a table at rest has T where Blue has no move, so 12 or 14 is given first.
ghost use Rattle.std.specs.Prelude.{◌≤◌};

use automaton::Automaton;

// The refusals whose faults the job has: those from one number to another.
#[derive(Clone, Copy)]
pub struct Faults {
    pub first: usize,
    pub last: usize,
}

impl Faults {
    // Has the job the fault of this refusal?
    fn has(self, number: usize) -> bool {
        (self.first..=self.last).contains(&number)
    }

    // 65 states for refusal 1, 17 letters for 2, and for 4 the start 2.
    pub fn automaton(self) -> Automaton {
        Automaton {
            states: if self.has(1) { 65 } else { 2 },
            letters: if self.has(2) { 17 } else { 1 },
            start: if self.has(4) { 2 } else { 0 },
        }
    }

    // Mark 1 is 2 for refusal 3.
    pub fn marks(self) -> [u8; 2] {
        [0, if self.has(3) { 2 } else { 1 }]
    }

    // For refusal 6 move 1 leads to state 2, and for 7 it is below move 0.
    pub fn moves(self) -> [u8; 6] {
        let mut moves = if self.has(7) {
            [1, 0, 0, 0, 0, 1]
        } else {
            [0, 0, 1, 1, 0, 0]
        };
        if self.has(6) {
            moves[5] = 2;
        }
        moves
    }

    // Five bytes of moves for refusal 5.
    pub fn bytes(self) -> usize
        ensures { (5 ≤ result) × (result ≤ 6) }
    {
        if self.has(5) { 5 } else { 6 }
    }

    // Mode 4 for refusal 8, else mode 0 for 17.
    pub fn mode(self) -> usize {
        if self.has(8) {
            4
        } else if self.has(17) {
            0
        } else {
            2
        }
    }

    // All entries lost for refusal 14, entry 4 not at rest for 12, entry 3 above T for 10. T is 3, and 1 in mode 0.
    pub fn table(self) -> [u32; 16] {
        let (mut entries, lost) = if self.has(17) {
            ([0; 16], 1)
        } else {
            ([0, 0, 0, 0, 1, 0, 1, 0, 0, 0, 0, 0, 0, 1, 0, 1], 3)
        };
        if self.has(14) {
            entries = [lost; 16];
        }
        if self.has(12) {
            entries[4] = 0;
        }
        if self.has(10) {
            entries[3] = 4;
        }
        entries
    }

    // Fifteen entries for refusal 9, which is no table's length in either mode.
    pub fn entries(self) -> usize
        ensures { result ≤ 16 }
    {
        if self.has(9) {
            15
        } else if self.has(17) {
            8
        } else {
            16
        }
    }

    // Position 16 for refusal 11, Spoiler's position 3 for 13, else a Duplicator's position: the last one.
    pub fn position(self) -> usize {
        if self.has(11) {
            16
        } else if self.has(13) {
            3
        } else if self.has(17) {
            7
        } else {
            15
        }
    }

    // Each output is a byte short for refusal 16.
    pub fn short(self) -> usize
        ensures { result ≤ 1 }
    {
        usize::from(self.has(16))
    }
}
