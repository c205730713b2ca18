// Collecting kind 1: T from the columns of the shares past k, then S from the others less what T gives there.
ghost use Rattle.std.specs.Prelude.{◌≤◌};
ghost use Rattle.algebra.specs.Symbol.{◌⊕◌};
ghost use Rattle.algebra.specs.Sums.{Same, dot};
ghost use Rattle.algebra.specs.Bytes.{at};
ghost use Rattle.collects.specs.Squares.{cells, Holds};
ghost use Rattle.collects.specs.Gather.{From, joined};

use crate::gather::{Shares, powers_each, weights};
use crate::square::{Row, Square, column, copy_rows, dot, flip, times_each};
use field::Products;

// What is left of the column y of the shares: from each entry its row of powers times the row r of T is taken.
fn rest(rows: &Square, y: &Row, r: &Row, k: usize, d: usize, t: &Products) -> Row
    requires { (k ≤ 31) × (d ≤ 31) }
    ensures { Same k (at result) (λ u. at y.now u ⊕ dot d (cells rows.now u) (at r.now)) }
{
    let mut v = [0u8; 31];
    // Stays: a loop, which is hot. By a closure the steps of kind 1 take a fifth more instructions.
    for u in 0..k {
        v[u] = y[u] ^ dot(&rows[u], r, d, t);
    }
    v
}

// What is left of the first k columns y of the shares. T's columns stand in the rows of far.
fn rests(rows: &Square, y: &Square, far: &Square, k: usize, d: usize, t: &Products) -> Square
    requires { (k ≤ 31) × (d ≤ 31) }
    ensures { Holds k k result (λ j u. cells y.now j u ⊕ dot d (cells rows.now u) (λ l. cells far.now l j)) }
{
    let mut g = [[0u8; 31]; 31];
    for j in 0..k {
        let r = column(far, j, d);
        g[j] = rest(rows, &y[j], &r, k, d, t);
    }
    g
}

// S beside T, from the shares.
pub fn mbr(shares: &Shares, k: usize, d: usize) -> Square
    requires { (k ≤ d) × (d ≤ 31) }
    ensures { From k d shares.now.points shares.now.rows (λ X C. Holds k d result (joined k d X C)) }
{
    let t = &shares.products;
    let f = weights(shares.points, k);
    let y = flip(&shares.rows, d);
    let far = times_each(&f, &y, k, k, k, d, t);
    let rows = powers_each(shares.points, k, d, t);
    let left = rests(&rows, &y, &far, k, d, t);
    let near = times_each(&f, &left, k, k, 0, k, t);
    let g = copy_rows(far, 0, &near, 0, k);
    flip(&g, d)
}
