// The number and the place of each answer, by document 01: number 0 if the call is accepted.
use automaton::Refusal;
use std::fmt;

#[derive(Clone, Copy, Default)]
pub struct Told {
    pub number: usize,
    pub place: usize,
}

impl Told {
    // What an answer tells. Of the value of an accepted one it tells nothing.
    pub fn of<T: Drop>(answer: Result<T, Refusal>) -> Told {
        match answer {
            Ok(_) => Told::default(),
            Err(refusal) => Told {
                number: refusal.number(),
                place: refusal.place(),
            },
        }
    }

    // What the answer of `rest` tells: the lowest restless position as a place.
    pub fn of_rest(answer: Result<Option<usize>, Refusal>) -> Told {
        match answer {
            Ok(Some(place)) => Told { number: 0, place },
            other => Told::of(other),
        }
    }
}

impl fmt::Display for Told {
    fn fmt<W: fmt::Write>(&self, f: &mut fmt::Formatter<W>) -> fmt::Result {
        let Told { number, place } = *self;
        write!(f, "{number}@{place}")
    }
}
