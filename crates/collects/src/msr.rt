// Collecting kind 2: the shares times phi transposed, parted into P and Q, and S1 and S2 from these. w is k - 1.
ghost use Rattle.std.specs.Prelude.{◌≡◌, ◌+◌, ◌≤◌, ◌<◌};
ghost use Rattle.algebra.specs.Symbol.{symbol, ◌⊕◌, ◌⊗◌};
ghost use Rattle.algebra.specs.Sums.{Same};
ghost use Rattle.algebra.specs.Frame.{skip};
ghost use Rattle.algebra.specs.Hollow.{second};
ghost use Rattle.algebra.specs.Bytes.{at};
ghost use Rattle.collects.specs.Squares.{cells, Holds};
ghost use Rattle.collects.specs.Gather.{From, factors, Halves, stacked};

use crate::gather::{Shares, powers_each, weights};
use crate::square::{Row, Square, copy_rows, flip, row, times, times_each};
use field::Products;

// The place i where the place u is left out.
fn skip(u: usize, i: usize) -> usize
    requires { i < 31 }
    ensures { (result ≡ skip u i) × (result ≤ i + 1) }
{
    if i < u { i } else { i + 1 }
}

// The w points other than the point u.
fn others(xs: Row, u: usize, w: usize) -> Row
    requires { w < 31 }
    ensures { Same w (at result) (λ i. at xs (skip u i)) }
{
    row(w, |i| xs[skip(u, i)])
}

// Stays: squares and sizes as parameters, here and below; each step takes others of them.
// Row u of Q, without its entry u. R stands in r, and the factor of each row at place w of its powers.
fn part_q(r: &Square, rows: &Square, u: usize, w: usize, t: &Products) -> Row
    requires { (u ≤ w) × (w < 31) }
    ensures { Same w (at result) (λ i. second (factors w rows.now) (cells r.now) u (skip u i)) }
{
    row(w, |i| {
        let s = skip(u, i);
        t.slope(r[u][s], r[s][u], rows[u][w], rows[s][w])
    })
}

// Row u of P, without its entry u, from that of Q and the factor l of the row.
fn part_p(r: &Square, q: Row, l: u8, u: usize, w: usize, t: &Products) -> Row
    requires { (u ≤ w) × (w < 31) }
    ensures { Same w (at result) (λ i. cells r.now u (skip u i) ⊕ symbol l ⊗ at q i) }
{
    row(w, |i| t.raised(r[u][skip(u, i)], l, q[i]))
}

// What the rows of P, and below them those of Q, solve for: the system without the point u is solved once for both.
fn halves(xs: Row, r: &Square, rows: &Square, w: usize, t: &Products) -> Square
    requires { w ≤ 15 }
    ensures { Halves w (at xs) (factors w rows.now) (cells r.now) w result }
{
    let mut h = [[0u8; 31]; 31];
    for u in 0..w {
        let f = weights(others(xs, u, w), w);
        let q = part_q(r, rows, u, w, t);
        let p = part_p(r, q, rows[u][w], u, w, t);
        h[u] = times(&f, &p, w, w, t);
        h[w + u] = times(&f, &q, w, w, t);
    }
    h
}

// S1 above S2, from the shares.
pub fn msr(shares: &Shares, w: usize) -> Square
    requires { w ≤ 15 }
    ensures { From (w + 1) w shares.now.points shares.now.rows (λ X C. Holds (w + w) w result (stacked w X C)) }
{
    let t = &shares.products;
    let xs = shares.points;
    let rows = powers_each(xs, w + 1, w + 1, t);
    let r = times_each(&rows, &shares.rows, w + 1, w, 0, w + 1, t);
    let h = halves(xs, &r, &rows, w, t);
    let f = weights(xs, w);
    let first = flip(&h, w);
    let near = times_each(&first, &f, w, w, 0, w, t);
    let below = copy_rows([[0u8; 31]; 31], 0, &h, w, w);
    let second = flip(&below, w);
    let far = times_each(&second, &f, w, w, 0, w, t);
    copy_rows(near, w, &far, 0, w)
}
