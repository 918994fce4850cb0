// The body of a Hanoi file: `read` lists its states on a sheet and marks the triples that its edges lead along.
// A token at a time: `step` tells what each leads to, `read` goes from one to the next.
#![tactic(auto)]

ghost use Rattle.std.specs.Prelude.{◌≡◌, ℕ, ◌^◌, ◌≤◌, ◌<◌, length, replicate};
ghost use Rattle.tokens.specs.Tokens.{token_from};
ghost use Rattle.tokens.specs.declared.Sort.TheVariants.{Number};
ghost use Rattle.triples.specs.Triples.{most_triples};
ghost use Rattle.bodies.specs.Body.{blank};
ghost use Rattle.bodies.specs.Adds.{Adds};
ghost use Rattle.bodies.specs.Reads.{Reads};
ghost use Rattle.bodies.specs.Stands.{step as step_of};

use automaton::{Automaton, Refusal};
use tokens::Sort;

// What is due next.
#[derive(Clone, Copy)]
pub enum Due {
    Block,
    State,
    Named(usize),
    Signed(usize),
    Braces(usize),
    Zero(usize),
    Edges(usize),
    Nothing,
}

// What a token leads to that may stand there.
#[derive(Clone, Copy)]
pub enum Next {
    To(Due),
    List(usize),
    Mark(usize),
    Edge(usize),
    Done,
}

// What the sheet says of a state: not listed, listed, listed with the mark `{0}`.
#[derive(Clone, Copy, PartialEq, Eq)]
pub enum Entry {
    Unlisted,
    Listed,
    Accepting,
}

// The numbers that a state can have in a file.
pub const NUMBERS: usize = 65536;

// The body from a place on: the sheet says which states are listed and marked, and `seen` which triples have an edge.
pub fn read(
    text: &[u8],
    from: usize,
    states: usize,
    props: usize,
    sheet: &mut [Entry],
    seen: &mut [u8],
) -> Result<(), Refusal>
    requires from_in_bounds { from ≤ length text.now }
    requires props_bound { props ≤ 4 }
    requires sheet_value { (sheet.old ≡ blank) × (seen.old ≡ replicate most_triples 0) }
    ensures { Reads (token_from text.now) states props from result sheet.new seen.new }
{
    let mut due = Due::Block;
    let mut at = from;
    loop {
        let x = tokens::token_from(text, at);
        match step(states, due, sheet, x.sort) {
            Some(Next::To(d)) => {
                due = d;
                at = x.next;
            }
            Some(Next::List(q)) => {
                sheet[q] = Entry::Listed;
                due = Due::Named(q);
                at = x.next;
            }
            Some(Next::Mark(q)) => {
                sheet[q] = Entry::Accepting;
                due = Due::Zero(q);
                at = x.next;
            }
            Some(Next::Edge(q)) => {
                at = edge(text, x.next, states, props, q, seen)?;
                due = Due::Edges(q);
            }
            Some(Next::Done) => return Ok(()),
            None => return Err(Refusal::Foreign(x.at)),
        }
    }
}

// Behind the `[` of an edge of q: its label and its target, whose triples are marked. The place behind the edge.
fn edge(
    text: &[u8],
    from: usize,
    states: usize,
    props: usize,
    q: usize,
    seen: &mut [u8],
) -> Result<usize, Refusal>
    requires from_in_bounds { from ≤ length text.now }
    requires props_bound { props ≤ 4 }
    requires q_lt_states { (q < states) × (length seen.old ≡ most_triples) }
    ensures { Adds (token_from text.now) states props q from result seen.old seen.new }
{
    let label = labels::letters(text, from, props)?;
    let x = tokens::token_from(text, label.next);
    match x.sort {
        Sort::Number(r) => {
            if states <= r {
                return Err(Refusal::Foreign(x.at));
            }
            if states <= Automaton::STATES {
                triples::note(states, letters_of(props), q, label.set, r, seen);
            }
            Ok(x.next)
        }
        _ => Err(Refusal::Foreign(x.at)),
    }
}

// So many propositions have so many letters.
pub fn letters_of(props: usize) -> usize
    requires { props ≤ 4 }
    ensures { result ≡ 2 ^ props }
{
    1usize << props
}

// What a token of a sort leads to.
fn step(states: usize, due: Due, sheet: &[Entry], sort: Sort) -> Option<Next>
    requires sheet_len { length sheet.now ≡ 65536 }
    requires number_has_entry { (v : ℕ) → sort ≡ Number v → v < 65536 }
    ensures { result ≡ step_of states due sheet.now sort }
{
    match (due, sort) {
        (Due::State, Sort::Number(q)) if q < states && sheet[q] == Entry::Unlisted => {
            Some(Next::List(q))
        }
        (Due::Named(q), Sort::Quoted) => Some(Next::To(Due::Signed(q))),
        (Due::Named(q) | Due::Signed(q), Sort::Marks) => Some(Next::To(Due::Braces(q))),
        (Due::Braces(q), Sort::Number(0)) => Some(Next::Mark(q)),
        (Due::Braces(q) | Due::Zero(q), Sort::MarksEnd) => Some(Next::To(Due::Edges(q))),
        (Due::Named(q) | Due::Signed(q) | Due::Edges(q), Sort::Label) => Some(Next::Edge(q)),
        (Due::Block | Due::Named(_) | Due::Signed(_) | Due::Edges(_), Sort::State) => {
            Some(Next::To(Due::State))
        }
        (Due::Block | Due::Named(_) | Due::Signed(_) | Due::Edges(_), Sort::End) => {
            Some(Next::To(Due::Nothing))
        }
        (Due::Nothing, Sort::Nothing) => Some(Next::Done),
        _ => None,
    }
}
