// The answers of the calls in numbers: what each kind of value tells, and what a refusal does.
ghost use Rattle.std.specs.Prelude.{◌≡◌};
ghost use Rattle.automaton.specs.Answer as numbers;
ghost use Rattle.table.specs.Answers.{found, rose};
ghost use Rattle.quotient.specs.Answers.{merged};
ghost use Rattle.capi.specs.Exported.{given};

use super::Answer;
use automaton::Refusal;
use quotient::Counts;

// A value that an accepted call gives.
pub trait Told {
    ghost told: { Self → numbers.Answer };

    // Its answer, with number 0.
    fn tell(self) -> Answer
        ensures { given result ≡ told self };
}

impl Told for () {
    ghost told = { numbers.done };

    fn tell(self) -> Answer {
        Answer::new(0, 0, 0, 0, 0)
    }
}

impl Told for usize {
    ghost told = { numbers.valued };

    fn tell(self) -> Answer {
        Answer::new(0, 0, self, 0, 0)
    }
}

// Whether an entry rose.
impl Told for bool {
    ghost told = { rose };

    fn tell(self) -> Answer {
        Answer::new(0, 0, usize::from(self), 0, 0)
    }
}

// The lowest position that is not at rest.
impl Told for Option<usize> {
    ghost told = { found };

    fn tell(self) -> Answer {
        match self {
            None => Answer::new(0, 0, 1, 0, 0),
            Some(lowest) => Answer::new(0, lowest, 0, 0, 0),
        }
    }
}

impl Told for Counts {
    ghost told = { merged };

    fn tell(self) -> Answer {
        Answer::new(0, 0, self.classes, self.moves, self.start)
    }
}

impl From<Refusal> for Answer {
    ghost from_gives = { λ refusal answer. given answer ≡ numbers.refused refusal };

    fn from(refusal: Refusal) -> Answer {
        Answer::new(refusal.number(), refusal.place(), 0, 0, 0)
    }
}

impl<T: Told> From<Result<T, Refusal>> for Answer {
    ghost from_gives = { λ outcome answer. given answer ≡ numbers.answered T.told outcome };

    fn from(outcome: Result<T, Refusal>) -> Answer {
        match outcome {
            Ok(value) => value.tell(),
            Err(refusal) => refusal.into(),
        }
    }
}
