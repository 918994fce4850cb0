// Hanoi files: `read` gives the automaton of one, its marks and its moves, or says why it cannot.
// The header and the body are each read in one pass; nothing is written before the last refusal is ruled out.
#![tactic(auto)]

ghost use Rattle.std.specs.Prelude.{◌≡◌, Ok, ◌≤◌, ◌<◌, length};
ghost use Rattle.automaton.specs.Answer.{accepted, answered, done, first_fault, unless};
ghost use Rattle.automaton.specs.Limits.{most_letters, most_states};
ghost use Rattle.simulation.specs.Rules.{bit};
ghost use Rattle.tokens.specs.Tokens.{token_from};
ghost use Rattle.headers.specs.declared.Wanted.TheVariants.{Format};
ghost use Rattle.headers.specs.Header.{unsaid};
ghost use Rattle.headers.specs.Walk.{Walk};
ghost use Rattle.triples.specs.Triples.{most_triples};
ghost use Rattle.bodies.specs.Body.{is_accepting};
ghost use Rattle.text.specs.Calls.{lent_of};
ghost use Rattle.hanoi.specs.Answers.{of_reading};
ghost use Rattle.hanoi.specs.Calls.{faults_of, Reads};
ghost use Rattle.hanoi.specs.Writing.{finishing, marks_of, moves_of, writing};

use automaton::{Automaton, Refusal};
use bodies::Entry;
use headers::{Headed, Header};

// What `read` gives: the automaton and the number of its moves.
#[derive(Clone, Copy)]
pub struct Reading {
    pub automaton: Automaton,
    pub moves: usize,
}

// The bytes, states and letters that a caller has room for.
#[derive(Clone, Copy)]
pub struct Limits {
    pub bytes: usize,
    pub states: usize,
    pub letters: usize,
}

// Reads a file: a mark a state and three bytes a move are written, and nothing past them.
// Refusals 22, then 23 or 24, then 1, 2, 21, 4 and 16, in this order.
pub fn read(
    text: &[u8],
    limits: Limits,
    marks: &mut [u8],
    moves: &mut [u8],
) -> Result<Reading, Refusal>
    ensures { Reads text.now limits (lent_of marks.old moves.old) (answered of_reading result) (lent_of marks.new moves.new) }
{
    if limits.bytes < text.len() {
        return Err(Refusal::TooLong);
    }
    let headed = headers::read(text)?;
    read_body(text, limits, headed, marks, moves)
}

// The rest of a file behind its header.
fn read_body(
    text: &[u8],
    limits: Limits,
    headed: Headed,
    marks: &mut [u8],
    moves: &mut [u8],
) -> Result<Reading, Refusal>
    requires text_len_bound { length text.now ≤ limits.bytes }
    requires walk { Walk (token_from text.now) Format unsaid 0 (Ok headed) }
    ensures { Reads text.now limits (lent_of marks.old moves.old) (answered of_reading result) (lent_of marks.new moves.new) }
{
    let Header {
        states,
        start,
        props,
        ..
    } = headed.header;
    let mut sheet = [Entry::Unlisted; bodies::NUMBERS];
    let mut seen = [0u8; triples::TRIPLES];
    bodies::read(
        text,
        headed.next,
        states,
        props,
        &mut sheet[..],
        &mut seen[..],
    )?;
    let automaton = Automaton {
        states,
        letters: bodies::letters_of(props),
        start,
    };
    finish(automaton, limits, &sheet[..], &seen[..], marks, moves)
}

// What is left to do with a file that was read: judge its numbers, and write.
fn finish(
    a: Automaton,
    limits: Limits,
    sheet: &[Entry],
    seen: &[u8],
    marks: &mut [u8],
    moves: &mut [u8],
) -> Result<Reading, Refusal>
    requires { (length sheet.now ≡ 65536) × (length seen.now ≡ most_triples) }
    ensures result_value { answered of_reading result ≡ (finishing limits a (marks_of sheet.now a.states) (moves_of a seen.now) (lent_of marks.old moves.old)).answer }
    ensures buffers_after { lent_of marks.new moves.new ≡ (finishing limits a (marks_of sheet.now a.states) (moves_of a seen.now) (lent_of marks.old moves.old)).left }
{
    judge(a, limits)?;
    write(a, sheet, seen, marks, moves)
}

// The refusals that the numbers of a file decide: 1, 2, 21 and 4, in this order.
fn judge(a: Automaton, limits: Limits) -> Result<(), Refusal>
    ensures { answered done result ≡ unless (first_fault (faults_of limits a)) accepted }
{
    let Automaton {
        states,
        letters,
        start,
    } = a;
    automaton::limits(a)?;
    if limits.states < states || limits.letters < letters {
        return Err(Refusal::ProgramLimits);
    }
    if states <= start {
        return Err(Refusal::Start);
    }
    Ok(())
}

// Writes the marks and the moves, if there is room for them.
fn write(
    a: Automaton,
    sheet: &[Entry],
    seen: &[u8],
    marks: &mut [u8],
    moves: &mut [u8],
) -> Result<Reading, Refusal>
    requires within_limits { (0 < a.states) × (a.states ≤ most_states) × (0 < a.letters) × (a.letters ≤ most_letters) }
    requires sheet_len { (length sheet.now ≡ 65536) × (length seen.now ≡ most_triples) }
    ensures result_value { answered of_reading result ≡ (writing a (marks_of sheet.now a.states) (moves_of a seen.now) (lent_of marks.old moves.old)).answer }
    ensures buffers_after { lent_of marks.new moves.new ≡ (writing a (marks_of sheet.now a.states) (moves_of a seen.now) (lent_of marks.old moves.old)).left }
{
    let Automaton {
        states,
        letters,
        ..
    } = a;
    let bytes = triples::bytes(states, letters, seen);
    if marks.len() < states || moves.len() < bytes {
        return Err(Refusal::OutputLength);
    }
    fill_marks(sheet, &mut marks[0..states]);
    triples::write_moves(states, letters, seen, moves);
    Ok(Reading {
        automaton: a,
        moves: bytes / 3,
    })
}

// Marks with 1 the states that the sheet has as accepting, and the others with 0.
fn fill_marks(sheet: &[Entry], marks: &mut [u8])
    requires { length marks.old ≤ length sheet.now }
    ensures { marks.new ≡ marks_of sheet.now (length marks.old) }
{
    for (q, mark) in marks.iter_mut().enumerate() {
        *mark = mark_of(sheet[q]);
    }
}

// The mark of a state.
fn mark_of(entry: Entry) -> u8
    ensures { result ≡ bit (is_accepting entry) }
{
    u8::from(entry == Entry::Accepting)
}
