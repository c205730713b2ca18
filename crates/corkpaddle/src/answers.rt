// The answers of the proved functions, as they cross: number, pair and count.
ghost use Rattle.std.specs.Prelude.{◌≡◌, ℕ};
ghost use Rattle.codes.specs.Told.{refused, say};
ghost use Rattle.corkpaddle.specs.Boundary.{Says};

use crate::Answer;
use codes::{Accepted, Refusal};
use shares::Filed;

// What a done answer carries across: a slip count, or 0 where it has none.
pub trait Carries {
    ghost count_in: { Self → ℕ };

    fn count(self) -> u32
        ensures { result ≡ count_in self };
}

impl Carries for () {
    ghost count_in = { λ _. 0 };

    fn count(self) -> u32 {
        0
    }
}

impl Carries for Accepted {
    ghost count_in = { λ _. 0 };

    fn count(self) -> u32 {
        0
    }
}

impl Carries for u32 {
    ghost count_in = { λ n. n };

    fn count(self) -> u32 {
        self
    }
}

impl Carries for Filed {
    ghost count_in = { λ f. f.count };

    fn count(self) -> u32 {
        self.count
    }
}

pub fn refused(r: Refusal) -> Answer
    ensures { Says result (refused r) }
{
    Answer {
        number: r.number() as u32,
        first: r.first() as u32,
        second: r.second() as u32,
        count: 0,
    }
}

// Any answer, as it crosses.
pub fn crossing<T: Carries>(answer: Result<T, Refusal>) -> Answer
    ensures { Says result (say T.count_in answer) }
{
    match answer {
        Ok(done) => Answer {
            number: 0,
            first: 0,
            second: 0,
            count: done.count(),
        },
        Err(r) => refused(r),
    }
}
