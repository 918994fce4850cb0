// What the lines of a text say, taken line by line: its numbers, and the first faults among its accept and move lines.
ghost use Rattle.std.specs.Prelude.{◌≡◌, ◌≤◌, None, length};
ghost use Rattle.lines.specs.Lines.{lines_of};
ghost use Rattle.text.specs.Order.{order as order_of, repeats as repeats_of, stands as stands_of};
ghost use Rattle.text.specs.Survey.{Few, most, at_fault as at_fault_of, ascends as ascends_of, rises as rises_of, within as within_of, accepted_by, moved_by, taken, surveyed, blank as blank_of};

use automaton::{Automaton, Move, Refusal};
use lines::line::Line;
use lines::reader::Reader;

// What the lines so far say. `strayed`, `outside` and `unsorted` are the numbers of the first accept and move lines at fault.
#[derive(Clone, Copy)]
pub struct Survey {
    pub automaton: Automaton,
    pub mode: usize,
    pub accepts: usize,
    pub last_accept: Option<usize>,
    pub strayed: Option<usize>,
    pub moves: usize,
    pub last_move: Option<Move>,
    pub outside: Option<usize>,
    pub unsorted: Option<usize>,
}

// The survey of all the lines. Refusal 20, at the first line of wrong form or order.
pub fn lines(text: &[u8]) -> Result<Survey, Refusal>
    requires { length text.now ≤ most }
    ensures { result ≡ surveyed None 1 blank_of (lines_of text.now) }
{
    let mut known = Survey::blank();
    let mut before = None;
    let mut number = 1;
    let mut at = 0;
    while at < text.len() {
        let read = Reader { text, at }.next();
        let Some(line) = read.line else {
            return Err(Refusal::LineForm(number));
        };
        if !stands(before, line) {
            return Err(Refusal::LineForm(number));
        }
        known = known.with(line);
        before = Some(line);
        number += 1;
        at = read.past;
    }
    match before {
        Some(_) => Ok(known),
        None => Err(Refusal::LineForm(number)),
    }
}

impl Survey {
    // The survey of no lines: a missing mode line means 1.
    fn blank() -> Survey
        ensures { result ≡ blank_of }
    {
        Survey {
            automaton: Automaton {
                states: 0,
                letters: 0,
                start: 0,
            },
            mode: 1,
            accepts: 0,
            last_accept: None,
            strayed: None,
            moves: 0,
            last_move: None,
            outside: None,
            unsorted: None,
        }
    }

    // The survey with one line more.
    fn with(self, line: Line) -> Survey
        requires { Few self most }
        ensures { result ≡ taken self line }
    {
        match line {
            Line::Automaton(states, letters, start) => Survey {
                automaton: Automaton {
                    states,
                    letters,
                    start,
                },
                ..self
            },
            Line::Mode(mode) => Survey { mode, ..self },
            Line::Accept(state) => self.with_accept(state),
            Line::Move(from, letter, to) => self.with_move(Move { from, letter, to }),
        }
    }

    // One accept line more: it strays if it is not above the one before, or not below the number of states.
    fn with_accept(self, state: usize) -> Survey
        requires { self.accepts ≤ most }
        ensures { result ≡ accepted_by self state }
    {
        let fine = ascends(self.last_accept, state) && state < self.automaton.states;
        Survey {
            accepts: self.accepts + 1,
            last_accept: Some(state),
            strayed: at_fault(self.strayed, self.accepts, fine),
            ..self
        }
    }

    // One move line more: inside the automaton or not, above the one before or not.
    fn with_move(self, step: Move) -> Survey
        requires { self.moves ≤ most }
        ensures { result ≡ moved_by self step }
    {
        Survey {
            moves: self.moves + 1,
            last_move: Some(step),
            outside: at_fault(self.outside, self.moves, within(step, self.automaton)),
            unsorted: at_fault(self.unsorted, self.moves, rises(self.last_move, step)),
            ..self
        }
    }
}

// A line's rank in the order of the kinds.
fn order(line: Line) -> usize
    ensures { result ≡ order_of line }
{
    match line {
        Line::Automaton(..) => 1,
        Line::Mode(_) => 2,
        Line::Accept(_) => 3,
        Line::Move(..) => 4,
    }
}

// May a line of this kind follow another of its kind?
fn repeats(line: Line) -> bool
    ensures { result ≡ repeats_of line }
{
    matches!(line, Line::Accept(_) | Line::Move(..))
}

// May the line stand after the one before? The first stands after none.
fn stands(before: Option<Line>, line: Line) -> bool
    ensures { result ≡ stands_of before line }
{
    let rank = order(line);
    match before {
        Some(before) => order(before) < rank || (order(before) == rank && repeats(line)),
        None => rank == 1,
    }
}

// Is the state above that of the accept line before? The first has none before it.
fn ascends(before: Option<usize>, state: usize) -> bool
    ensures { result ≡ ascends_of before state }
{
    match before {
        Some(last) => last < state,
        None => true,
    }
}

// Is the move above the one before? The first has none before it.
fn rises(before: Option<Move>, step: Move) -> bool
    ensures { result ≡ rises_of before step }
{
    match before {
        Some(last) => last < step,
        None => true,
    }
}

// Are the states and the letter of the move the automaton's?
fn within(step: Move, a: Automaton) -> bool
    ensures { result ≡ within_of step a }
{
    step.from < a.states && step.letter < a.letters && step.to < a.states
}

// The number of the first at fault, when the next one, of this number, is fine or not.
fn at_fault(first: Option<usize>, number: usize, fine: bool) -> Option<usize>
    ensures { result ≡ at_fault_of first number fine }
{
    match first {
        None if !fine => Some(number),
        _ => first,
    }
}
