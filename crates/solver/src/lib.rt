// The basis solutions of a square system of rows of powers: for each point the coefficients of the polynomial that is 1 there and 0
// at the others. They are made once for a list of points; the solution for any values is then a sum of them.
// Interpolation is Newton's, in place: a pass forward over the values and a pass backward to the coefficients.
#![tactic(auto)]

ghost use Rattle.std.specs.Prelude.{◌≡◌, ◌+◌, ◌<◌, ◌≤◌, length};
ghost use Rattle.algebra.specs.Sums.{Same, unit};
ghost use Rattle.algebra.specs.Poly.{interp};
ghost use Rattle.algebra.specs.Levels.{Forward, Backward};
ghost use Rattle.algebra.specs.Bytes.{at};
ghost use Rattle.solver.specs.Basis.{basis_of};
ghost use Rattle.solver.specs.Passes.{Moves};

use field::Products;

// Round u of the forward pass.
// Stays: the row, the points and the table as parameters. A struct of them would lend the row for writing and say one equation of lengths.
fn forward_round(a: &mut [u8], xs: &[u8], u: usize, t: &Products)
    requires { (length a.old ≡ length xs.now) × (u < length xs.now) }
    ensures { let s = length xs.now in Moves (Forward s u (at xs.now)) (Forward s (u + 1) (at xs.now)) a.old a.new }
{
    for i in u + 1..xs.len() {
        a[i] = t.slope(a[i], a[u], xs[i], xs[u]);
    }
}

fn forward(a: &mut [u8], xs: &[u8], t: &Products)
    requires { length a.old ≡ length xs.now }
    ensures { let s = length xs.now in Moves (Forward s 0 (at xs.now)) (Forward s s (at xs.now)) a.old a.new }
{
    for u in 0..xs.len() {
        forward_round(a, xs, u, t);
    }
}

// Round u of the backward pass.
fn backward_round(a: &mut [u8], xs: &[u8], u: usize, t: &Products)
    requires { (length a.old ≡ length xs.now) × (u < length xs.now) }
    ensures { let s = length xs.now in Moves (Backward s (u + 1) (at xs.now)) (Backward s u (at xs.now)) a.old a.new }
{
    for i in u..xs.len() - 1 {
        a[i] = t.raised(a[i], xs[u], a[i + 1]);
    }
}

fn backward(a: &mut [u8], xs: &[u8], t: &Products)
    requires { length a.old ≡ length xs.now }
    ensures { let s = length xs.now in Moves (Backward s s (at xs.now)) (Backward s 0 (at xs.now)) a.old a.new }
{
    for u in (0..xs.len()).rev() {
        backward_round(a, xs, u, t);
    }
}

// The solution for 1 at point u and 0 at the others.
fn solution(xs: &[u8], u: usize, t: &Products) -> [u8; 31]
    requires { (length xs.now ≤ 31) × (u < length xs.now) }
    ensures { Same 31 (at result) (interp (length xs.now) (at xs.now) (unit u)) }
{
    let mut a = [0u8; 31];
    a[u] = 1;
    let row = &mut a[..xs.len()];
    forward(row, xs, t);
    backward(row, xs, t);
    a
}

// The solutions for the unit vectors: row u, cut to s entries, solves for 1 at point u and 0 at the others.
// Stays: a buffer with a count beside it, since this public signature and its promise may not change.
#[tactic(auto, using(crate::proofs::Solutions::basis_steps))]
pub fn basis(xs: [u8; 31], s: usize) -> [[u8; 31]; 31]
    ensures { result ≡ basis_of xs s }
{
    let mut rows = [[0u8; 31]; 31];
    if s > 31 {
        return rows;
    }
    let t = Products::new();
    for u in 0..s {
        rows[u] = solution(&xs[..s], u, &t);
    }
    rows
}
