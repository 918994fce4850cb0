// The text of an automaton: `read` gives the automaton, its mode, its marks and its moves, or says why it cannot.
#![tactic(auto)]

mod fill; // fill.rt: the marks and the moves, put into lent buffers
mod survey; // survey.rt: what all lines say, and the first faults among them

ghost use Rattle.std.specs.Prelude.{◌≡◌};
ghost use Rattle.automaton.specs.Answer.{answered, done, first_fault, unless, accepted};
ghost use Rattle.text.specs.Answers.{of_reading};
ghost use Rattle.text.specs.Calls.{reading, lent_of};
ghost use Rattle.text.specs.Survey.{judgements};

use self::survey::Survey;
use automaton::{Automaton, Mode, Refusal};

// What `read` gives: the automaton, the number of its mode and the number of its moves.
#[derive(Clone, Copy)]
pub struct Reading {
    pub automaton: Automaton,
    pub mode: usize,
    pub moves: usize,
}

// The limits of the programs.
pub const STATES: usize = 16;

pub const LETTERS: usize = 8;

pub const BYTES: usize = 32768;

// The bytes of all the moves that an automaton within them can have.
pub const MOVES: usize = 3 * STATES * LETTERS * STATES;

// Reads a text: a mark a state and three bytes a move are written, and nothing past them.
// Refusals 22, 20, 1, 2, 21, 3, 4, 6, 7, 8 and 16, in this order.
pub fn read(text: &[u8], marks: &mut [u8], moves: &mut [u8]) -> Result<Reading, Refusal>
    ensures result_value { answered of_reading result ≡ (reading text.now (lent_of marks.old moves.old)).answer }
    ensures marks_after { marks.new ≡ (reading text.now (lent_of marks.old moves.old)).left.marks }
    ensures moves_after { moves.new ≡ (reading text.now (lent_of marks.old moves.old)).left.moves }
{
    if BYTES < text.len() {
        return Err(Refusal::TooLong);
    }
    let survey = survey::lines(text)?;
    judge(survey)?;
    let Survey {
        automaton,
        mode,
        moves: count,
        ..
    } = survey;
    if marks.len() < automaton.states || moves.len() / 3 < count {
        return Err(Refusal::OutputLength);
    }
    fill::write(text, automaton.states, marks, moves);
    Ok(Reading {
        automaton,
        mode,
        moves: count,
    })
}

// The refusals that a survey decides: 1, 2, 21, 3, 4, 6, 7 and 8, in this order.
fn judge(survey: Survey) -> Result<(), Refusal>
    ensures { answered done result ≡ unless (first_fault (judgements survey)) accepted }
{
    let Automaton {
        states,
        letters,
        start,
    } = survey.automaton;
    automaton::limits(survey.automaton)?;
    if STATES < states || LETTERS < letters {
        return Err(Refusal::ProgramLimits);
    }
    if let Some(strayed) = survey.strayed {
        return Err(Refusal::Marks(strayed));
    }
    if states <= start {
        return Err(Refusal::Start);
    }
    if let Some(outside) = survey.outside {
        return Err(Refusal::Outside(outside));
    }
    if let Some(unsorted) = survey.unsorted {
        return Err(Refusal::Unsorted(unsorted));
    }
    Mode::try_from(survey.mode)?;
    Ok(())
}
