// A code read off the body of its C record: kind, n, k, d and 32 points. A byte past the end counts 0.
ghost use Rattle.std.specs.Prelude.{◌≡◌, ◌+◌, get_or, drop};
ghost use Rattle.codes.specs.Body.{symbols_at, code_at};

use crate::Code;
use field::Symbol;
use std::array;

// What stands from a place on: nothing where it is past the end.
// Stays: with the next, beside the like in `records`, since neither crate stands on the other.
fn rest_from(s: &[u8], at: usize) -> &[u8]
    ensures { result.now ≡ drop at s.now }
{
    &s[at.min(s.len())..]
}

// The byte that stands i after a place.
fn byte_after(s: &[u8], at: usize, i: usize) -> u8
    ensures { result ≡ get_or s.now (at + i) 0 }
{
    rest_from(s, at).get(i).copied().unwrap_or(0)
}

// The 32 points at a place behind four bytes. What stands there goes over zeros in one run, so that no byte is tested for by itself.
fn points_at(s: &[u8], at: usize) -> [Symbol; 32]
    ensures { result ≡ symbols_at 32 s.now (at + 4) }
{
    let rest = rest_from(rest_from(s, at), 4);
    let n = rest.len().min(32);
    let mut bytes = [0; 32];
    bytes[..n].copy_from_slice(&rest[..n]);
    array::from_fn(|i| Symbol(bytes[i]))
}

// The code at a place, which is any usize.
#[tactic(auto, unfolding(crate::specs::Body::code_at))]
pub fn code_at(s: &[u8], at: usize) -> Code
    ensures { result ≡ code_at s.now at }
{
    Code {
        kind: byte_after(s, at, 0),
        n: byte_after(s, at, 1),
        k: byte_after(s, at, 2),
        d: byte_after(s, at, 3),
        points: points_at(s, at),
    }
}
