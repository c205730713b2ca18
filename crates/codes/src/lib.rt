// Codes: what a code is, which codes are accepted, and what each refusal is.
#![tactic(auto)]

ghost use Rattle.std.specs.Prelude.{◌≡◌, ◌-◌, get_or, IfOk};
ghost use Rattle.codes.specs.Told.{number_of, first_of, second_of};
ghost use Rattle.codes.specs.Sizes.{alpha, bytes, none};
ghost use Rattle.codes.specs.Judge.{judged, say_judged};

use field::Symbol;

mod accepted; // accepted.rt: a code that the judge accepted
mod body; // body.rt: a code read off the body of its C record
mod cells; // cells.rt: where a message's symbol stands in the message matrix
mod limits; // limits.rt: the kinds and sizes that a code may have
mod points; // points.rt: the first offending pair of points, and unused points

pub use accepted::Accepted;
pub use body::code_at;
pub use cells::Cell;
pub use limits::{MBR, MSR, is_known, is_sized};
use points::judge_points;

// A station's number, from 1. It cannot be multiplied, and a symbol cannot stand for it.
#[derive(Clone, Copy, PartialEq, Eq)]
pub struct Node(pub u8);

// A code: its kind, the numbers n, k and d, and 32 places for points, of which the first n count.
#[derive(Clone, Copy)]
pub struct Code {
    // Stays: a C record's byte, which may be any. The judge refuses what is no kind, and alpha, bytes, cell and mark answer for all.
    pub kind: u8,
    pub n: u8,
    pub k: u8,
    pub d: u8,
    pub points: [Symbol; 32],
}

// Document 01's refusals, by its names. Points names the first offending pair of places.
#[derive(Clone, Copy, PartialEq, Eq)]
pub enum Refusal {
    Record,
    Kind,
    Size,
    Points { first: u8, second: u8 },
    Length,
    Node,
    Repeat,
    Mixed,
    Order,
    Place,
}

impl Refusal {
    // Document 01's number.
    pub fn number(self) -> u8
        ensures { result ≡ number_of self }
    {
        match self {
            Refusal::Record => 1,
            Refusal::Kind => 2,
            Refusal::Size => 3,
            Refusal::Points { .. } => 4,
            Refusal::Length => 5,
            Refusal::Node => 6,
            Refusal::Repeat => 7,
            Refusal::Mixed => 8,
            Refusal::Order => 9,
            Refusal::Place => 10,
        }
    }

    // The first place of its pair; 0 where it names none.
    pub fn first(self) -> u8
        ensures { result ≡ first_of self }
    {
        match self {
            Refusal::Points { first, .. } => first,
            _ => 0,
        }
    }

    // The second place of its pair; 0 where it names none.
    // Stays: beside `first`, since each is public with a promise of its own.
    pub fn second(self) -> u8
        ensures { result ≡ second_of self }
    {
        match self {
            Refusal::Points { second, .. } => second,
            _ => 0,
        }
    }
}

impl Code {
    // The bytes of a share of one stripe, by the table of document 01; a number for codes that are refused too.
    #[tactic(auto, unfolding(crate::specs::Sizes::alpha))]
    pub fn alpha(self) -> usize
        ensures { result ≡ alpha self }
    {
        if self.kind == MBR {
            usize::from(self.d)
        } else {
            usize::from(self.k).saturating_sub(1)
        }
    }

    // The bytes of a message stripe, by the table of document 01; a number for codes that are refused too.
    #[tactic(auto, unfolding(crate::specs::Sizes::bytes))]
    pub fn bytes(self) -> usize
        ensures { result ≡ bytes self }
    {
        let k = usize::from(self.k);
        if self.kind == MBR {
            k * (k + 1) / 2 + k * usize::from(self.d).saturating_sub(k)
        } else {
            k * k.saturating_sub(1)
        }
    }

    // The point of a node, whatever its number: node 0 reads the first place, and past the last place a point is 0.
    pub fn point(self, node: Node) -> Symbol
        ensures { result.0 ≡ (get_or self.points (node.0 - 1) none).0 }
    {
        let i = usize::from(node.0).saturating_sub(1);
        self.points.get(i).copied().unwrap_or(Symbol::ZERO)
    }
}

// The judge: document 01's refusals 2, 3 and 4, the last with its pair of places.
pub fn judge(code: Code) -> Result<Accepted, Refusal>
    ensures answer { say_judged result ≡ judged code }
    ensures same { IfOk result (λ a. a.code ≡ code) }
{
    if !is_known(code.kind) {
        return Err(Refusal::Kind);
    }
    if !is_sized(code) {
        return Err(Refusal::Size);
    }
    judge_points(code)?;
    Ok(Accepted { code })
}
