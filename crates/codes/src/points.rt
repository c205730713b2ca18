// The points of a code: the first offending pair of nodes, and the first unused place that is not zero.
ghost use Rattle.std.specs.Prelude.{◌≡◌, ◌+◌, ◌≤◌, ◌<◌, not, [], ◌∷◌, MatchOption};
ghost use Rattle.codes.specs.Told.{◌when◌, answered};
ghost use Rattle.codes.specs.Judge.{mark, marks, pair_first, pair_second, unused_at, pointed, pair_in, say_judged};
ghost use Rattle.codes.specs.declared.Refusal.TheVariants.{Points};

use crate::limits::MBR;
use crate::{Code, Refusal};
use field::Symbol;
use std::array;

// What must differ between any two points.
#[tactic(auto, unfolding(crate::specs::Judge::mark))]
fn mark_of(code: Code, x: Symbol) -> u8
    ensures { result ≡ mark code x.0 }
{
    if code.kind == MBR {
        x.0
    } else {
        x.power(usize::from(code.k).saturating_sub(1)).0
    }
}

fn marks_of(code: Code) -> [u8; 32]
    ensures { result ≡ marks code }
{
    array::from_fn(|i| mark_of(code, code.points[i]))
}

// The first pair of places below n with equal marks.
// Stays: nested loops left by a label, a form that document 01 names; a count beside the array, since the definition has it so.
#[tactic(auto, using(crate::proofs::First::searches), unfolding(crate::specs::Judge::pair_first, crate::specs::Judge::pair_second))]
fn first_pair(m: &[u8; 32], n: usize) -> Option<(usize, usize)>
    requires { n ≤ 32 }
    ensures { MatchOption result (n ≤ pair_first m.now n)
        (λ p. (p.0 ≡ pair_first m.now n) × (p.1 ≡ pair_second m.now n p.0) × (p.0 < n) × (p.1 < n)) }
{
    let mut found = None;
    'pairs: for i in 0..n {
        for j in i + 1..n {
            if m[i] == m[j] {
                found = Some((i, j));
                break 'pairs;
            }
        }
    }
    found
}

// The first place from n on whose point is not zero.
// Stays: a loop over places. By `find` over them the promise was left open.
#[tactic(auto, using(crate::proofs::First::searches), unfolding(crate::specs::Judge::unused_at))]
fn first_unused(points: &[Symbol; 32], n: usize) -> Option<usize>
    requires { n ≤ 32 }
    ensures { MatchOption result (32 ≤ unused_at points.now n) (λ u. (u ≡ unused_at points.now n) × (u < 32)) }
{
    for i in n..32 {
        if points[i] != Symbol::ZERO {
            return Some(i);
        }
    }
    None
}

// The refusal that names two places, which it counts from 1.
fn offending(i: usize, j: usize) -> Refusal
    requires { (i < 32) × (j < 32) }
    ensures { result ≡ Points (i + 1) (j + 1) }
{
    Refusal::Points {
        first: (i + 1) as u8,
        second: (j + 1) as u8,
    }
}

// What the marks and the unused points of a code say.
pub fn judge_points(code: Code) -> Result<(), Refusal>
    requires { code.n ≤ 32 }
    ensures { say_judged result ≡ answered ((4 when not (pointed (marks code) code.points code.n)) ∷ []) (pair_in code) 0 }
{
    let n = usize::from(code.n);
    if let Some((i, j)) = first_pair(&marks_of(code), n) {
        return Err(offending(i, j));
    }
    if let Some(i) = first_unused(&code.points, n) {
        return Err(offending(i, i));
    }
    Ok(())
}
