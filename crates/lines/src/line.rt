// One line of the text: its fields, and what they say.
ghost use Rattle.std.specs.Prelude.{◌≡◌, ◌∷◌, option_map};
ghost use Rattle.fields.specs.Bytes.{tab};
ghost use Rattle.lines.specs.Lines.{cut, fields_of, word_of, one, three, line_of};

use super::scan;

// The word that a line begins with.
#[derive(Clone, Copy)]
pub enum Word {
    Automaton,
    Mode,
    Accept,
    Move,
}

// What a line says.
#[derive(Clone, Copy)]
pub enum Line {
    Automaton(usize, usize, usize),
    Mode(usize),
    Accept(usize),
    Move(usize, usize, usize),
}

// What a line says, its newline left out; none if it has no form that a line may have.
#[tactic(auto, unfolding(crate::specs::Lines::meaning))]
pub fn read(line: &[u8]) -> Option<Line>
    ensures { result ≡ line_of line.now }
{
    let (word, rest) = front(line);
    let word = word_of(word)?;
    let (first, rest) = front(rest?);
    let x = fields::read_number(first)?;
    let Some(rest) = rest else {
        return one(word, x);
    };
    let (second, rest) = front(rest);
    let y = fields::read_number(second)?;
    let (third, rest) = front(rest?);
    let z = fields::read_number(third)?;
    match rest {
        None => three(word, x, y, z),
        Some(_) => None,
    }
}

// The first field of a line, and what stands behind the tab that ends it, if a tab does.
fn front(line: &[u8]) -> (&[u8], Option<&[u8]>)
    ensures { cut tab line.now ≡ result.0.now ∷ fields_of (option_map (λ rest. rest.now) result.1) }
{
    match scan::find(line, 0, line.len(), fields::TAB) {
        Some(end) => (&line[..end], Some(&line[end + 1..])),
        None => (line, None),
    }
}

// The word that a field is.
#[tactic(auto, unfolding(crate::specs::Lines::word_of))]
fn word_of(field: &[u8]) -> Option<Word>
    ensures { result ≡ word_of field.now }
{
    if field == b"automaton".as_slice() {
        Some(Word::Automaton)
    } else if field == b"mode".as_slice() {
        Some(Word::Mode)
    } else if field == b"accept".as_slice() {
        Some(Word::Accept)
    } else if field == b"move".as_slice() {
        Some(Word::Move)
    } else {
        None
    }
}

// A line of a word and one number.
fn one(word: Word, x: usize) -> Option<Line>
    ensures { result ≡ one word x }
{
    match word {
        Word::Mode => Some(Line::Mode(x)),
        Word::Accept => Some(Line::Accept(x)),
        Word::Automaton | Word::Move => None,
    }
}

// A line of a word and three numbers.
fn three(word: Word, x: usize, y: usize, z: usize) -> Option<Line>
    ensures { result ≡ three word x y z }
{
    match word {
        Word::Automaton => Some(Line::Automaton(x, y, z)),
        Word::Move => Some(Line::Move(x, y, z)),
        Word::Mode | Word::Accept => None,
    }
}
