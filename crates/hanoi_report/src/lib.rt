// From the bytes of a Hanoi file to the bytes that its relation program prints: `report`, in mode 2.
#![tactic(auto)]

ghost use Rattle.automaton.specs.Answer.{answered, valued};
ghost use Rattle.hanoi_report.specs.Report.{Reports};

use arena::Job;
use automaton::{Mode, Refusal};
use hanoi::Limits;

// Reads a file and writes what the program prints for it: the delayed relation, or why the file is refused.
// It answers how many bytes it wrote. Refusal 16 if the buffer is shorter than the longest report.
pub fn report(file: &[u8], out: &mut [u8]) -> Result<usize, Refusal>
    ensures { Reports file.now out.old (answered valued result) out.new }
{
    if out.len() < report::LONGEST {
        return Err(Refusal::OutputLength);
    }
    let limits = Limits {
        bytes: text::BYTES,
        states: text::STATES,
        letters: text::LETTERS,
    };
    let mut marks = [0u8; text::STATES];
    let mut moves = [0u8; text::MOVES];
    match hanoi::read(file, limits, &mut marks[..], &mut moves[..]) {
        Ok(reading) => {
            let job = Job {
                automaton: reading.automaton,
                marks: &marks[..reading.automaton.states],
                moves: &moves[..reading.moves * 3],
                mode: Mode::DELAYED,
            };
            Ok(printer::describe(&job, out))
        }
        Err(refusal) => Ok(printer::refuse(out, refusal)),
    }
}
