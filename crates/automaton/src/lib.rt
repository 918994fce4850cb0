// An automaton as its callers lend it, the modes of its games, and `check`, with which every other call begins.
// The marks and the moves are lent as bytes beside the record: one mark a state, three bytes (from, letter, to) a move.
#![tactic(auto)]

ghost use Rattle.std.specs.Prelude.{◌≡◌, ◌+◌, ◌*◌, ◌/◌, ◌<◌, length};
ghost use Rattle.std.specs.Option.{ok_or};
ghost use Rattle.automaton.specs.Answer.{answered, done, number_of, place_of};
ghost use Rattle.automaton.specs.Board.{above, board_of, move_at, outside, unsorted};
ghost use Rattle.automaton.specs.Check.{checked, high, limited};
ghost use Rattle.automaton.specs.First.{first_below};
ghost use Rattle.automaton.specs.Limits.{name_of};
ghost use Rattle.automaton.specs.declared.Refusal.TheVariants.{ModeNumber};

// States 0 to states-1, letters 0 to letters-1, and the start state.
#[derive(Clone, Copy)]
pub struct Automaton {
    pub states: usize,
    pub letters: usize,
    pub start: usize,
}

impl Automaton {
    pub const STATES: usize = 64;

    pub const LETTERS: usize = 16;
}

// The numbers of a move. They stand in the order by which moves ascend.
#[derive(Clone, Copy, PartialEq, Eq, PartialOrd, Ord)]
pub struct Move {
    pub from: usize,
    pub letter: usize,
    pub to: usize,
}

impl Move {
    // The move with this number.
    #[inline]
    pub fn at(moves: &[u8], i: usize) -> Move
        requires { i * 3 + 2 < length moves.now }
        ensures { result ≡ move_at moves.now i }
    {
        let at = i * 3;
        Move {
            from: wide(moves[at]),
            letter: wide(moves[at + 1]),
            to: wide(moves[at + 2]),
        }
    }
}

// The four games.
#[derive(Clone, Copy)]
pub enum Mode {
    Ordinary,
    Direct,
    Delayed,
    Fair,
}

impl Mode {
    pub const ORDINARY: usize = 0;

    pub const DIRECT: usize = 1;

    pub const DELAYED: usize = 2;

    pub const FAIR: usize = 3;
}

// The mode with this number. Refusal 8.
impl TryFrom<usize> for Mode {
    type Error = Refusal;

    ghost try_from_gives = { λ number r. r ≡ ok_or (name_of number) ModeNumber };

    fn try_from(number: usize) -> Result<Mode, Refusal> {
        match number {
            Mode::ORDINARY => Ok(Mode::Ordinary),
            Mode::DIRECT => Ok(Mode::Direct),
            Mode::DELAYED => Ok(Mode::Delayed),
            Mode::FAIR => Ok(Mode::Fair),
            _ => Err(Refusal::ModeNumber),
        }
    }
}

// Why a call was refused, with the place of the first thing at fault where there is one to name.
#[derive(Clone, Copy)]
pub enum Refusal {
    States,
    Letters,
    Marks(usize),
    Start,
    Bytes,
    Outside(usize),
    Unsorted(usize),
    ModeNumber,
    TableLength,
    AboveCeiling(usize),
    PositionNumber,
    NotAtRest(usize),
    SpoilerPosition,
    LostPosition,
    NoMove,
    OutputLength,
    WrongMode,
    LineForm(usize),
    ProgramLimits,
    TooLong,
    Foreign(usize),
    TooDeep(usize),
}

impl Refusal {
    // The number of the refusal in the table.
    pub fn number(self) -> usize
        ensures { result ≡ number_of self }
    {
        match self {
            Refusal::States => 1,
            Refusal::Letters => 2,
            Refusal::Marks(_) => 3,
            Refusal::Start => 4,
            Refusal::Bytes => 5,
            Refusal::Outside(_) => 6,
            Refusal::Unsorted(_) => 7,
            Refusal::ModeNumber => 8,
            Refusal::TableLength => 9,
            Refusal::AboveCeiling(_) => 10,
            Refusal::PositionNumber => 11,
            Refusal::NotAtRest(_) => 12,
            Refusal::SpoilerPosition => 13,
            Refusal::LostPosition => 14,
            Refusal::NoMove => 15,
            Refusal::OutputLength => 16,
            Refusal::WrongMode => 17,
            Refusal::LineForm(_) => 20,
            Refusal::ProgramLimits => 21,
            Refusal::TooLong => 22,
            Refusal::Foreign(_) => 23,
            Refusal::TooDeep(_) => 24,
        }
    }

    // Its place, 0 where the table names none.
    pub fn place(self) -> usize
        ensures { result ≡ place_of self }
    {
        match self {
            Refusal::States => 0,
            Refusal::Letters => 0,
            Refusal::Marks(at) => at,
            Refusal::Start => 0,
            Refusal::Bytes => 0,
            Refusal::Outside(at) => at,
            Refusal::Unsorted(at) => at,
            Refusal::ModeNumber => 0,
            Refusal::TableLength => 0,
            Refusal::AboveCeiling(at) => at,
            Refusal::PositionNumber => 0,
            Refusal::NotAtRest(at) => at,
            Refusal::SpoilerPosition => 0,
            Refusal::LostPosition => 0,
            Refusal::NoMove => 0,
            Refusal::OutputLength => 0,
            Refusal::WrongMode => 0,
            Refusal::LineForm(line) => line,
            Refusal::ProgramLimits => 0,
            Refusal::TooLong => 0,
            Refusal::Foreign(at) => at,
            Refusal::TooDeep(at) => at,
        }
    }
}

// Checks the numbers of states and letters alone: refusals 1 and 2.
pub fn limits(a: Automaton) -> Result<(), Refusal>
    ensures { answered done result ≡ limited a.states a.letters }
{
    let Automaton {
        states,
        letters,
        ..
    } = a;
    if states < 1 || Automaton::STATES < states {
        return Err(Refusal::States);
    }
    if letters < 1 || Automaton::LETTERS < letters {
        return Err(Refusal::Letters);
    }
    Ok(())
}

// Checks an automaton: refusals 1 to 7, the lowest number that applies.
pub fn check(a: Automaton, marks: &[u8], moves: &[u8]) -> Result<(), Refusal>
    ensures { answered done result ≡ checked (board_of a marks.now moves.now) a.start }
{
    limits(a)?;
    let Automaton { states, start, .. } = a;
    if marks.len() != states {
        return Err(Refusal::Marks(states));
    }
    if let Some(mark) = first_high(marks) {
        return Err(Refusal::Marks(mark));
    }
    if states <= start {
        return Err(Refusal::Start);
    }
    if moves.len() % 3 != 0 {
        return Err(Refusal::Bytes);
    }
    if let Some(outside) = first_outside(a, moves) {
        return Err(Refusal::Outside(outside));
    }
    if let Some(unsorted) = first_unsorted(moves) {
        return Err(Refusal::Unsorted(unsorted));
    }
    Ok(())
}

// A byte, wide enough to count and to index with.
pub fn wide(x: u8) -> usize
    ensures { result ≡ x }
{
    usize::from(x)
}

// The first mark above 1, if there is one.
fn first_high(marks: &[u8]) -> Option<usize>
    ensures { result ≡ first_below (high marks.now) (length marks.now) }
{
    marks.iter().position(|mark| 1 < *mark)
}

// The first move with a state or a letter out of range, if there is one.
fn first_outside(a: Automaton, moves: &[u8]) -> Option<usize>
    ensures { result ≡ first_below (outside a.states a.letters moves.now) (length moves.now / 3) }
{
    (0..moves.len() / 3).find(|i| is_outside(a, moves, *i))
}

// Has move i a state or a letter out of range?
fn is_outside(a: Automaton, moves: &[u8], i: usize) -> bool
    requires { i * 3 + 2 < length moves.now }
    ensures { result ≡ outside a.states a.letters moves.now i }
{
    let at = i * 3;
    a.states <= wide(moves[at])
        || a.letters <= wide(moves[at + 1])
        || a.states <= wide(moves[at + 2])
}

// The first move not above the one before it, if there is one.
fn first_unsorted(moves: &[u8]) -> Option<usize>
    ensures { result ≡ first_below (unsorted moves.now) (length moves.now / 3) }
{
    (0..moves.len() / 3).find(|i| is_unsorted(moves, *i))
}

// Is move i not above the one before it? The first move has none before it.
fn is_unsorted(moves: &[u8], i: usize) -> bool
    requires { i * 3 + 2 < length moves.now }
    ensures { result ≡ unsorted moves.now i }
{
    0 < i && !is_above(Move::at(moves, i - 1), Move::at(moves, i))
}

// Is the second move above the first: by from, then letter, then to? By hand, since every call asks it of every move and the derived order is slower.
pub fn is_above(first: Move, second: Move) -> bool
    ensures { result ≡ above first.from first.letter first.to second.from second.letter second.to }
{
    if first.from != second.from {
        return first.from < second.from;
    }
    if first.letter != second.letter {
        return first.letter < second.letter;
    }
    first.to < second.to
}
