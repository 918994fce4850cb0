// The labels of a Hanoi file: `letters` gives the set of letters that make a label true.
// A label is evaluated for all letters at once: bit a of a mask tells letter a.
#![tactic(auto)]

ghost use Rattle.std.specs.Prelude.{◌≡◌, ◌≢◌, length, ◌≤◌, ◌<◌};
ghost use Rattle.tokens.specs.Tokens.{token_from};
ghost use Rattle.tokens.specs.declared.Sort.TheVariants as sort;
ghost use Rattle.labels.specs.Label.{prop, unit, whole};
ghost use Rattle.labels.specs.Letters.{Agrees, Lettering};
ghost use Rattle.labels.specs.Parts.{Reading, Whole, Nots, turned_of, ended_of, Atom};

use automaton::Refusal;
use tokens::{Sort, Token};

// The letters that make a label true, and the place behind it.
#[derive(Clone, Copy)]
pub struct Lettered {
    pub set: u16,
    pub next: usize,
}

// Round brackets nest so deep at most.
pub const DEEPEST: usize = 16;

// All letters.
const ALL: u16 = 65535;

// The letters of the label from a place to its `]`, and the place behind that.
pub fn letters(text: &[u8], from: usize, props: usize) -> Result<Lettered, Refusal>
    requires from_in_bounds { from ≤ length text.now }
    requires props_bound { props ≤ 4 }
    ensures { Lettering (token_from text.now) props from result }
{
    let read = label(text, from, DEEPEST, props)?;
    ended(text, read, Sort::LabelEnd)
}

// The letters of a label, whose brackets may nest `deeper` deep.
#[cycle(label_unit)]
fn label(text: &[u8], from: usize, deeper: usize, props: usize) -> Result<Lettered, Refusal>
    requires { (from ≤ length text.now) × (props ≤ 4) }
    ensures reading { Reading (token_from text.now) props whole deeper from result }
    ensures whole { Whole (token_from text.now) result }
{
    let mut any: u16 = 0;
    let mut all = ALL;
    let mut at = from;
    loop {
        let read = unit(text, at, deeper, props)?;
        let x = tokens::token_from(text, read.next);
        at = x.next;
        all &= read.set;
        match x.sort {
            Sort::Or => {
                any |= all;
                all = ALL;
            }
            Sort::And => {}
            _ => {
                return Ok(Lettered {
                    set: any | all,
                    next: read.next,
                });
            }
        }
    }
}

// The letters of a unit: `t`, `f`, a proposition or a label in brackets, behind any number of `!`.
#[cycle(label_unit)]
fn unit(text: &[u8], from: usize, deeper: usize, props: usize) -> Result<Lettered, Refusal>
    requires { (from ≤ length text.now) × (props ≤ 4) }
    ensures { Reading (token_from text.now) props unit deeper from result }
{
    let row = nots(text, from);
    let x = row.behind;
    match x.sort {
        Sort::Group => {
            if deeper == 0 {
                return Err(Refusal::TooDeep(x.at));
            }
            let inner = label(text, x.next, deeper - 1, props)?;
            let group = ended(text, inner, Sort::GroupEnd)?;
            Ok(turned(row.odd, group))
        }
        _ => {
            let read = atom(x, props)?;
            Ok(turned(row.odd, read))
        }
    }
}

// Whether a row of `!` is odd, the place behind it, and the token there.
#[derive(Clone, Copy)]
pub struct Row {
    pub odd: bool,
    pub at: usize,
    pub behind: Token,
}

fn nots(text: &[u8], from: usize) -> Row
    requires { from ≤ length text.now }
    ensures row { Nots (token_from text.now) from result.odd result.at }
    ensures behind { result.behind ≡ token_from text.now result.at }
    ensures over { (token_from text.now result.at).sort ≢ sort.Not }
    ensures inside { result.at ≤ length text.now }
{
    let mut at = from;
    let mut odd = false;
    loop {
        let x = tokens::token_from(text, at);
        match x.sort {
            Sort::Not => {
                odd = !odd;
                at = x.next;
            }
            _ => return Row { odd, at, behind: x },
        }
    }
}

// The other letters, behind an odd row of `!`.
fn turned(odd: bool, read: Lettered) -> Lettered
    ensures { result ≡ turned_of odd read }
{
    if odd {
        Lettered {
            set: read.set ^ ALL,
            next: read.next,
        }
    } else {
        read
    }
}

// What was read, if the token behind it is the one that ends it.
fn ended(text: &[u8], read: Lettered, end: Sort) -> Result<Lettered, Refusal>
    requires { read.next ≤ length text.now }
    ensures { result ≡ ended_of (token_from text.now) end read }
{
    let x = tokens::token_from(text, read.next);
    if x.sort != end {
        return Err(Refusal::Foreign(x.at));
    }
    Ok(Lettered {
        set: read.set,
        next: x.next,
    })
}

// The letters of `t`, `f` or a proposition.
fn atom(x: Token, props: usize) -> Result<Lettered, Refusal>
    requires over { (x.sort ≢ sort.Group) × (x.sort ≢ sort.Not) }
    requires props_bound { props ≤ 4 }
    ensures { Atom props x result }
{
    let set = match x.sort {
        Sort::True => ALL,
        Sort::False => 0,
        Sort::Number(i) => {
            if props <= i {
                return Err(Refusal::Foreign(x.at));
            }
            column(i)
        }
        _ => return Err(Refusal::Foreign(x.at)),
    };
    Ok(Lettered { set, next: x.next })
}

// The letters of which a proposition holds.
fn column(i: usize) -> u16
    requires { i < 4 }
    ensures { Agrees result (prop i) }
{
    match i {
        0 => 0xaaaa,
        1 => 0xcccc,
        2 => 0xf0f0,
        _ => 0xff00,
    }
}
