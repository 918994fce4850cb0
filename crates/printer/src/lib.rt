// What the programs print, put into a buffer: the line of a refusal, and the relation of an automaton within their limits.
#![tactic(auto)]

mod pairs; // pairs.rt: the lines of the related pairs
mod row; // row.rt: one line put into a buffer

ghost use Rattle.std.specs.Prelude.{◌≡◌, ◌*◌, length};
ghost use Rattle.fields.specs.Bytes.{laid, stop};
ghost use Rattle.games.specs.Settle.{settle};
ghost use Rattle.arena.specs.Job.{game_of};
ghost use Rattle.printer.specs.Printed.{refusal_text, relation_text, pair_lines};
ghost use Rattle.printer.specs.Small.{Small};

use arena::{Job, Seating};
use automaton::Refusal;

// The positions and the pairs of an automaton within the limits of the programs.
const ENTRIES: usize = 2 * text::STATES * text::STATES * (1 + text::LETTERS);

const PAIRS: usize = text::STATES * text::STATES;

// Puts the line of a refusal: the place past it.
pub fn refuse(out: &mut [u8], refusal: Refusal) -> usize
    ensures value { result ≡ stop 0 (refusal_text refusal) out.old }
    ensures out_after { out.new ≡ laid 0 (refusal_text refusal) out.old }
{
    row::put(out, 0, b"refused", &[refusal.number(), refusal.place()])
}

// Puts the relation of an automaton within the limits of the programs: the place past it.
pub fn describe(job: &Job, out: &mut [u8]) -> usize
    requires { Small job.now }
    ensures value { result ≡ stop 0 (relation_text job.now) out.old }
    ensures out_after { out.new ≡ laid 0 (relation_text job.now) out.old }
{
    let entries = arena::positions(job.automaton, job.mode).unwrap();
    let mut table = [0u32; ENTRIES];
    describe_on(job, &mut table[..entries], out)
}

// The same on a lent table of P entries, which it settles.
fn describe_on(job: &Job, table: &mut [u32], out: &mut [u8]) -> usize
    requires small { Small job.now }
    requires table_len { length table.old ≡ (game_of job.now).P }
    ensures value { result ≡ stop 0 (relation_text job.now) out.old }
    ensures out_after { out.new ≡ laid 0 (relation_text job.now) out.old }
{
    let raised = table::settle(job, table).unwrap();
    let begun = row::put(out, 0, b"relation", &[job.mode, job.automaton.states]);
    let told = put_pairs(job, table, out, begun);
    row::put(out, told, b"raised", &[raised])
}

// Puts the lines of the pairs that `relation` reports from a settled table: the place past them.
fn put_pairs(job: &Job, table: &[u32], out: &mut [u8], at: usize) -> usize
    requires small { Small job.now }
    requires table_value { table.now ≡ (settle (game_of job.now)).table }
    ensures value { result ≡ stop at (pair_lines job.now) out.old }
    ensures out_after { out.new ≡ laid at (pair_lines job.now) out.old }
{
    let states = job.automaton.states;
    let mut related = [0u8; PAIRS];
    put_pairs_on(job, table, &mut related[..states * states], out, at)
}

// The same on n² lent bytes, which `relation` fills.
fn put_pairs_on(job: &Job, table: &[u32], related: &mut [u8], out: &mut [u8], at: usize) -> usize
    requires small { Small job.now }
    requires table_value { table.now ≡ (settle (game_of job.now)).table }
    requires related_len { length related.old ≡ job.now.board.n * job.now.board.n }
    ensures value { result ≡ stop at (pair_lines job.now) out.old }
    ensures out_after { out.new ≡ laid at (pair_lines job.now) out.old }
{
    relation::relation(job, table, related).unwrap();
    let arena = arena::for_table(job, table.len()).unwrap();
    pairs::put(
        &Seating {
            arena,
            marks: job.marks,
            table,
        },
        related,
        out,
        at,
    )
}
