// The tokens of a Hanoi file: `token_from` gives the one at or after a place, with its first byte and the place behind it.
#![tactic(auto)]

ghost use Rattle.std.specs.Prelude.{◌≡◌, cond, drop, get_or, length, ◌+◌, ◌≤◌, ◌<◌};
ghost use Rattle.std.specs.List.{prefix_len};
ghost use Rattle.tokens.specs.declared.Sort.TheVariants.{Minor as minor, Wrong as wrong_sort};
ghost use Rattle.tokens.specs.Sorts.{plain};
ghost use Rattle.tokens.specs.Tokens.{blank, dashed, digit, gap, head_sort, letter, lower, numeral as numeral_of, opens, quoted_to, shuts, sign_sort, sorted, token_at, token_from, unquoted, worded, wordly, word_sort, wrong_at};

// What a token is: a class of the format, or one word or sign of it.
#[derive(Clone, Copy, PartialEq, Eq)]
pub enum Sort {
    // decimal digits, no zero before another, at most 65535
    Number(usize),
    // a text in double quotes
    Quoted,
    // a word that is none of the four below
    Name,
    // `t`, `f`, `v1`, `Inf`
    True,
    False,
    Version,
    Inf,
    // `!`, `&`, `|`, `(`, `)`, `[`, `]`, `{`, `}`
    Not,
    And,
    Or,
    Group,
    GroupEnd,
    Label,
    LabelEnd,
    Marks,
    MarksEnd,
    // `HOA:`, `States:`, `Start:`, `AP:`, `Acceptance:`, `State:`
    Hoa,
    States,
    Start,
    Ap,
    Acceptance,
    State,
    // any other header word that begins with a lower-case letter
    Minor,
    // `--BODY--`, `--END--`
    Body,
    End,
    // no token follows
    Nothing,
    // no token of the part of the format that is read
    Wrong,
}

impl Sort {
    // Is it a number, a text in quotes or a word?
    #[inline]
    pub fn is_plain(self) -> bool
        ensures { result ≡ plain self }
    {
        matches!(
            self,
            Sort::Number(_)
                | Sort::Quoted
                | Sort::Name
                | Sort::True
                | Sort::False
                | Sort::Version
                | Sort::Inf
        )
    }
}

// A token: what it is, the place of its first byte and the place behind it.
#[derive(Clone, Copy)]
pub struct Token {
    pub sort: Sort,
    pub at: usize,
    pub next: usize,
}

// The token at or after a place.
pub fn token_from(text: &[u8], from: usize) -> Token
    requires { from ≤ length text.now }
    ensures { result ≡ token_from text.now from }
{
    match skip(text, from) {
        Some(at) => token_at(text, at),
        None => wrong(text.len()),
    }
}

// The token whose first byte is at i.
fn token_at(text: &[u8], i: usize) -> Token
    requires { i ≤ length text.now }
    ensures { result ≡ token_at text.now i }
{
    if text.len() <= i {
        return sorted(Sort::Nothing, i, i);
    }
    let b = text[i];
    if is_digit(b) {
        let j = i + digits(&text[i..]);
        return numeral(fields::read_number(&text[i..j]), i, j);
    }
    if is_letter(b) {
        let j = i + word_len(&text[i..]);
        return word(text, i, j);
    }
    if b == b'"' {
        return quoted(i, quote_end(text, i + 1));
    }
    if b == b'-' {
        return dashes(text, i);
    }
    sorted(sign(b), i, i + 1)
}

// How many digits a text begins with.
fn digits(text: &[u8]) -> usize
    ensures { result ≡ prefix_len digit text.now }
{
    text.iter().take_while(|b| is_digit(**b)).count()
}

// How many bytes of a word a text begins with.
fn word_len(text: &[u8]) -> usize
    ensures { result ≡ prefix_len wordly text.now }
{
    text.iter().take_while(|b| is_wordly(**b)).count()
}

// A token of a sort.
fn sorted(sort: Sort, at: usize, next: usize) -> Token
    ensures { result ≡ sorted sort at next }
{
    Token { sort, at, next }
}

// Nothing that may stand there.
fn wrong(at: usize) -> Token
    ensures { result ≡ wrong_at at }
{
    sorted(Sort::Wrong, at, at)
}

// Digits from i to j.
fn numeral(number: Option<usize>, i: usize, j: usize) -> Token
    ensures { result ≡ numeral_of number i j }
{
    match number {
        Some(value) => sorted(Sort::Number(value), i, j),
        None => wrong(i),
    }
}

// A word from i to j, or a header word whose colon is at j.
fn word(text: &[u8], i: usize, j: usize) -> Token
    requires { (i < j) × (j ≤ length text.now) }
    ensures { result ≡ worded text.now i j }
{
    if j < text.len() && text[j] == b':' {
        return sorted(head_sort(&text[i..j]), i, j + 1);
    }
    sorted(word_sort(&text[i..j]), i, j)
}

// A text in quotes, by the place behind its end.
fn quoted(i: usize, end: Option<usize>) -> Token
    ensures { result ≡ quoted_to i end }
{
    let Some(j) = end else {
        return wrong(i);
    };
    sorted(Sort::Quoted, i, j)
}

// `--BODY--` or `--END--`.
fn dashes(text: &[u8], i: usize) -> Token
    requires { i ≤ length text.now }
    ensures { result ≡ dashed text.now i }
{
    if text[i..].starts_with(b"--BODY--") {
        return sorted(Sort::Body, i, i + 8);
    }
    if text[i..].starts_with(b"--END--") {
        return sorted(Sort::End, i, i + 7);
    }
    wrong(i)
}

// What a word is.
fn word_sort(word: &[u8]) -> Sort
    ensures { result ≡ word_sort word.now }
{
    if word == b"t".as_slice() {
        Sort::True
    } else if word == b"f".as_slice() {
        Sort::False
    } else if word == b"v1".as_slice() {
        Sort::Version
    } else if word == b"Inf".as_slice() {
        Sort::Inf
    } else {
        Sort::Name
    }
}

// What a word with a colon is.
fn head_sort(word: &[u8]) -> Sort
    requires { 0 < length word.now }
    ensures { result ≡ head_sort word.now }
{
    if word == b"HOA".as_slice() {
        Sort::Hoa
    } else if word == b"States".as_slice() {
        Sort::States
    } else if word == b"Start".as_slice() {
        Sort::Start
    } else if word == b"AP".as_slice() {
        Sort::Ap
    } else if word == b"Acceptance".as_slice() {
        Sort::Acceptance
    } else if word == b"State".as_slice() {
        Sort::State
    } else {
        unknown_sort(word[0])
    }
}

// What an unknown header word is, by its first byte.
fn unknown_sort(first: u8) -> Sort
    ensures { result ≡ cond (lower first) minor wrong_sort }
{
    if is_lower(first) {
        return Sort::Minor;
    }
    Sort::Wrong
}

// What a sign is.
fn sign(b: u8) -> Sort
    ensures { result ≡ sign_sort b }
{
    match b {
        b'!' => Sort::Not,
        b'&' => Sort::And,
        b'|' => Sort::Or,
        b'(' => Sort::Group,
        b')' => Sort::GroupEnd,
        b'[' => Sort::Label,
        b']' => Sort::LabelEnd,
        b'{' => Sort::Marks,
        b'}' => Sort::MarksEnd,
        _ => Sort::Wrong,
    }
}

// Where white space and comments end, unless the text ends inside a comment.
fn skip(text: &[u8], from: usize) -> Option<usize>
    requires { from ≤ length text.now }
    ensures { result ≡ gap (drop from text.now) 0 from }
{
    let mut i = from;
    let mut inside: usize = 0;
    while 1 < text.len() - i {
        let a = text[i];
        let b = text[i + 1];
        if is_opening(a, b) {
            inside += 1;
            i += 2;
        } else if inside == 0 {
            if is_blank(a) {
                i += 1;
            } else {
                return Some(i);
            }
        } else if is_shutting(a, b) {
            inside -= 1;
            i += 2;
        } else {
            i += 1;
        }
    }
    if 0 < inside {
        return None;
    }
    if i < text.len() && is_blank(text[i]) {
        return Some(i + 1);
    }
    Some(i)
}

// The place behind the quote that ends a text.
fn quote_end(text: &[u8], from: usize) -> Option<usize>
    requires { from ≤ length text.now }
    ensures { result ≡ unquoted (drop from text.now) from }
{
    let mut i = from;
    while 1 < text.len() - i {
        let a = text[i];
        if a == b'"' {
            return Some(i + 1);
        }
        if a == b'\\' {
            i += 2;
        } else {
            i += 1;
        }
    }
    if i < text.len() && text[i] == b'"' {
        return Some(i + 1);
    }
    None
}

fn is_blank(b: u8) -> bool
    ensures { result ≡ blank b }
{
    matches!(b, b' ' | b'\t' | b'\n' | b'\r')
}

fn is_digit(b: u8) -> bool
    ensures { result ≡ digit b }
{
    matches!(b, b'0'..=b'9')
}

fn is_lower(b: u8) -> bool
    ensures { result ≡ lower b }
{
    matches!(b, b'a'..=b'z')
}

fn is_letter(b: u8) -> bool
    ensures { result ≡ letter b }
{
    matches!(b, b'a'..=b'z' | b'A'..=b'Z' | b'_')
}

fn is_wordly(b: u8) -> bool
    ensures { result ≡ wordly b }
{
    is_letter(b) || is_digit(b) || b == b'-'
}

fn is_opening(a: u8, b: u8) -> bool
    ensures { result ≡ opens a b }
{
    a == b'/' && b == b'*'
}

fn is_shutting(a: u8, b: u8) -> bool
    ensures { result ≡ shuts a b }
{
    a == b'*' && b == b'/'
}
