// The marks and the moves that a text gives, put into lent buffers.
ghost use Rattle.std.specs.Prelude.{◌≡◌, length, ◌≤◌};
ghost use Rattle.fields.specs.Bytes.{laid, stop};
ghost use Rattle.lines.specs.Lines.{lines_of};
ghost use Rattle.text.specs.Text.{accepts, accepts_in, marked, marks as marks_of, moves as moves_of, moves_in};
ghost use Rattle.text.specs.Calls.{before};
ghost use Rattle.text.specs.Fill.{bytes};

use lines::line::Line;
use lines::reader::Reader;

// Writes the marks of all states and the moves of a text.
pub fn write(text: &[u8], states: usize, marks: &mut [u8], moves: &mut [u8])
    requires { states ≤ length marks.old }
    ensures marks_after { marks.new ≡ before (marks_of states (lines_of text.now)) marks.old }
    ensures moves_after { moves.new ≡ laid 0 (bytes (moves_of (lines_of text.now))) moves.old }
{
    let front = &mut marks[..states];
    front.fill(0);
    fill(text, front, moves);
}

// Marks the states that accept lines name, and puts the moves one after another.
fn fill(text: &[u8], marks: &mut [u8], moves: &mut [u8])
    ensures marks_after { marks.new ≡ marked (accepts (lines_of text.now)) marks.old }
    ensures moves_after { moves.new ≡ laid 0 (bytes (moves_of (lines_of text.now))) moves.old }
{
    let mut at = 0;
    let mut to = 0;
    while at < text.len() {
        let read = Reader { text, at }.next();
        mark(marks, read.line);
        to = lay(moves, to, read.line);
        at = read.past;
    }
}

// Marks the state that an accept line names.
fn mark(marks: &mut [u8], line: Option<Line>)
    ensures { marks.new ≡ marked (accepts_in line) marks.old }
{
    if let Some(Line::Accept(state)) = line {
        if state < marks.len() {
            marks[state] = 1;
        }
    }
}

// Puts the three bytes of a move line: the place past them.
fn lay(moves: &mut [u8], at: usize, line: Option<Line>) -> usize
    ensures value { result ≡ stop at (bytes (moves_in line)) moves.old }
    ensures moves_after { moves.new ≡ laid at (bytes (moves_in line)) moves.old }
{
    let Some(Line::Move(from, letter, to)) = line else {
        return at;
    };
    let first = fields::put(moves, at, (from % 256) as u8);
    let second = fields::put(moves, first, (letter % 256) as u8);
    fields::put(moves, second, (to % 256) as u8)
}
