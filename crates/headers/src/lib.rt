// The header of a Hanoi file: `read` gives what it says and the place behind `--BODY--`.
// A token at a time: `step` tells what each leads to, `read` goes from one to the next.
#![tactic(auto)]

ghost use Rattle.std.specs.Prelude.{◌≡◌};
ghost use Rattle.tokens.specs.Tokens.{token_from};
ghost use Rattle.headers.specs.Stands.{item as item_of, names_after, once as once_of, step as step_of, whole as whole_of};
ghost use Rattle.headers.specs.Header.{unsaid};
ghost use Rattle.headers.specs.Walk.{Walk};
ghost use Rattle.headers.specs.declared.Wanted.TheVariants.{Format};

use automaton::Refusal;
use tokens::Sort;

// What a header says: how many states there are, the one to start in, how many propositions there are, and whether `AP:` stood.
#[derive(Clone, Copy)]
pub struct Header {
    pub states: usize,
    pub start: usize,
    pub props: usize,
    pub named: bool,
}

// What a header has said so far, by those that may stand once.
#[derive(Clone, Copy)]
pub struct Said {
    pub states: Option<usize>,
    pub start: Option<usize>,
    pub props: Option<usize>,
    pub accepting: bool,
}

// What is wanted next.
#[derive(Clone, Copy)]
pub enum Wanted {
    Format,
    Version,
    Item,
    Value,
    States,
    Start,
    Props,
    Names(usize),
    Sets,
    Inf,
    Opening,
    Zero,
    Closing,
}

// What a token leads to that may stand there.
#[derive(Clone, Copy)]
pub enum Next {
    To(Wanted, Said),
    Body(Header),
}

// A header and the place behind its `--BODY--`.
#[derive(Clone, Copy)]
pub struct Headed {
    pub header: Header,
    pub next: usize,
}

// A file has so many propositions at most.
pub const PROPS: usize = 4;

// The header of a file.
pub fn read(text: &[u8]) -> Result<Headed, Refusal>
    ensures { Walk (token_from text.now) Format unsaid 0 result }
{
    let mut wanted = Wanted::Format;
    let mut said = Said {
        states: None,
        start: None,
        props: None,
        accepting: false,
    };
    let mut at = 0;
    loop {
        let x = tokens::token_from(text, at);
        match step(wanted, said, x.sort) {
            Some(Next::To(w, s)) => {
                wanted = w;
                said = s;
                at = x.next;
            }
            Some(Next::Body(header)) => {
                return Ok(Headed {
                    header,
                    next: x.next,
                });
            }
            None => return Err(Refusal::Foreign(x.at)),
        }
    }
}

// What a token of a sort leads to.
fn step(wanted: Wanted, said: Said, sort: Sort) -> Option<Next>
    ensures { result ≡ step_of wanted said sort }
{
    match (wanted, sort) {
        (Wanted::Format, Sort::Hoa) => Some(Next::To(Wanted::Version, said)),
        (Wanted::Version, Sort::Version) => Some(Next::To(Wanted::Item, said)),
        (Wanted::Value, _) if sort.is_plain() => Some(Next::To(Wanted::Value, said)),
        (Wanted::Item | Wanted::Value, _) => item(said, sort),
        (Wanted::States, Sort::Number(n)) => Some(Next::To(
            Wanted::Item,
            Said {
                states: Some(n),
                ..said
            },
        )),
        (Wanted::Start, Sort::Number(q)) => Some(Next::To(
            Wanted::Item,
            Said {
                start: Some(q),
                ..said
            },
        )),
        (Wanted::Props, Sort::Number(p)) if p <= PROPS => Some(Next::To(
            names_after(p),
            Said {
                props: Some(p),
                ..said
            },
        )),
        (Wanted::Names(left), Sort::Quoted) => Some(Next::To(names_after(left), said)),
        (Wanted::Sets, Sort::Number(1)) => Some(Next::To(Wanted::Inf, said)),
        (Wanted::Inf, Sort::Inf) => Some(Next::To(Wanted::Opening, said)),
        (Wanted::Opening, Sort::Group) => Some(Next::To(Wanted::Zero, said)),
        (Wanted::Zero, Sort::Number(0)) => Some(Next::To(Wanted::Closing, said)),
        (Wanted::Closing, Sort::GroupEnd) => Some(Next::To(
            Wanted::Item,
            Said {
                accepting: true,
                ..said
            },
        )),
        _ => None,
    }
}

// A header word, or `--BODY--` where all that is required has stood.
fn item(said: Said, sort: Sort) -> Option<Next>
    ensures { result ≡ item_of said sort }
{
    match sort {
        Sort::States => once(said.states.is_some(), Wanted::States, said),
        Sort::Start => once(said.start.is_some(), Wanted::Start, said),
        Sort::Ap => once(said.props.is_some(), Wanted::Props, said),
        Sort::Acceptance => once(said.accepting, Wanted::Sets, said),
        Sort::Minor => Some(Next::To(Wanted::Value, said)),
        Sort::Body => whole(said),
        _ => None,
    }
}

// A header that may stand once.
fn once(stood: bool, wanted: Wanted, said: Said) -> Option<Next>
    ensures { result ≡ once_of stood wanted said }
{
    if stood {
        None
    } else {
        Some(Next::To(wanted, said))
    }
}

// The body, if all that is required has stood; without `AP:` there are no propositions.
fn whole(said: Said) -> Option<Next>
    ensures { result ≡ whole_of said }
{
    match (said.states, said.start, said.accepting) {
        (Some(states), Some(start), true) => Some(Next::Body(Header {
            states,
            start,
            props: said.props.unwrap_or(0),
            named: said.props.is_some(),
        })),
        _ => None,
    }
}

// What is wanted where so many names are left.
fn names_after(left: usize) -> Wanted
    ensures { result ≡ names_after left }
{
    if left == 0 {
        Wanted::Item
    } else {
        Wanted::Names(left - 1)
    }
}
