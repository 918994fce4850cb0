// The one reader: the text and the place to which it is read.
ghost use Rattle.std.specs.Prelude.{◌≡◌};
ghost use Rattle.lines.specs.Reader.{read_at};

use super::line::Line;
use super::{line, scan};

// A line, if it has a form that a line may have, and the place past it.
#[derive(Clone, Copy)]
pub struct Read {
    pub line: Option<Line>,
    pub past: usize,
}

// The text and a place in it.
#[derive(Clone, Copy)]
pub struct Reader<'a> {
    pub text: &'a [u8],
    pub at: usize,
}

impl Reader<'_> {
    // The line at the reader's place, and the place past it. What no newline ends has no form.
    pub fn next(self) -> Read
        ensures { result ≡ read_at self.entry.text.now self.entry.at }
    {
        let Reader { text, at } = self;
        let open = Read {
            line: None,
            past: text.len(),
        };
        if text.len() <= at {
            return open;
        }
        match scan::find(text, at, text.len(), fields::NEWLINE) {
            Some(end) => Read {
                line: line::read(&text[at..end]),
                past: end + 1,
            },
            None => open,
        }
    }
}
