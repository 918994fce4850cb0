// From the bytes of a text to the bytes that the relation program prints: `report`.
#![tactic(auto)]

mod input; // input.rt: reading what a program is given

ghost use Rattle.std.specs.Prelude.{◌≡◌};
ghost use Rattle.automaton.specs.Answer.{answered, valued};
ghost use Rattle.report.specs.Calls.{reporting};

use arena::Job;
use automaton::Refusal;
pub use input::fill;

// No report is longer.
pub const LONGEST: usize = 4096;

// Reads a text and writes what the relation program prints for it: the relation, or why the text is refused.
// It answers how many bytes it wrote. Refusal 16 if the buffer is shorter than the longest report.
pub fn report(text: &[u8], out: &mut [u8]) -> Result<usize, Refusal>
    ensures result_value { answered valued result ≡ (reporting text.now out.old).answer }
    ensures out_after { out.new ≡ (reporting text.now out.old).left }
{
    if out.len() < LONGEST {
        return Err(Refusal::OutputLength);
    }
    let mut marks = [0u8; text::STATES];
    let mut moves = [0u8; text::MOVES];
    match text::read(text, &mut marks[..], &mut moves[..]) {
        Ok(reading) => {
            let job = Job {
                automaton: reading.automaton,
                marks: &marks[..reading.automaton.states],
                moves: &moves[..reading.moves * 3],
                mode: reading.mode,
            };
            Ok(printer::describe(&job, out))
        }
        Err(refusal) => Ok(printer::refuse(out, refusal)),
    }
}
