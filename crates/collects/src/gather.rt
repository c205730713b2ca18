// Collecting a stripe: the matrix from any k shares, and the message read off it. What depends only on the points is made once.
ghost use Rattle.std.specs.Prelude.{◌≡◌, ◌+◌, ◌*◌, ◌≤◌, length};
ghost use Rattle.algebra.specs.Symbol.{symbol, pow};
ghost use Rattle.algebra.specs.Sums.{Same};
ghost use Rattle.algebra.specs.Bytes.{at, table};
ghost use Rattle.codes.specs.Sizes.{alpha, bytes};
ghost use Rattle.codes.specs.Matrix.{lane, row_of, col_of};
ghost use Rattle.codes.specs.Collect.{gathered, collected};
ghost use Rattle.collects.specs.Squares.{cells, Holds, Solver};
ghost use Rattle.collects.specs.Gather.{From, deep};

use crate::mbr::mbr;
use crate::msr::msr;
use crate::square::{Row, Square, entry, flip};
use codes::{Accepted, MBR};
use field::{Products, Symbol};
use rebuilds::points::points_of;

// What solves at the first s of the points xs: row i has the weights of the values in entry i of the solution.
pub fn weights(xs: Row, s: usize) -> Square
    requires { s ≤ 31 }
    ensures { Solver s xs result }
{
    flip(&solver::basis(xs, s), s)
}

// The first n powers of a point.
// Stays: beside the row of `stripes`. That one makes 31 powers, and here n are made for each of k points: with n = 10 a third of the products.
fn powers(x: u8, n: usize, t: &Products) -> Row
    requires { n ≤ 31 }
    ensures { Same n (at result) (pow (symbol x)) }
{
    let mut v = [0u8; 31];
    let mut p = Symbol::ONE;
    for i in 0..n {
        v[i] = p.0;
        p = t.times(Symbol(x), p);
    }
    v
}

// The first n powers of each of the first k points: their rows.
pub fn powers_each(xs: Row, k: usize, n: usize, t: &Products) -> Square
    requires { (k ≤ 31) × (n ≤ 31) }
    ensures { Holds k n result (λ u. pow (at xs u)) }
{
    let mut g = [[0u8; 31]; 31];
    for u in 0..k {
        g[u] = powers(xs[u], n, t);
    }
    g
}

// n bytes of a run, from a place on.
fn part(run: &[u8], from: usize, n: usize) -> Row
    requires { (n ≤ 31) × (from + n ≤ length run.now) }
    ensures { Same n (at result) (λ j. at run.now (from + j)) }
{
    let mut v = [0u8; 31];
    v[..n].copy_from_slice(&run[from..from + n]);
    v
}

// A run of k shares of a bytes as rows.
fn shares_in(run: &[u8], k: usize, a: usize) -> Square
    requires { (k ≤ 31) × (a ≤ 31) × (length run.now ≡ k * a) }
    ensures { Holds k a result (λ u j. at run.now (u * a + j)) }
{
    let mut g = [[0u8; 31]; 31];
    for u in 0..k {
        g[u] = part(run, u * a, a);
    }
    g
}

// What a stripe is collected from: the points of the nodes, their shares as rows, and the products, which are made once.
#[derive(Drop)]
pub struct Shares {
    pub points: Row,
    pub rows: Square,
    pub products: Products,
}

// The matrix that the shares give.
fn gathered(accepted: Accepted, shares: &Shares) -> Square
    ensures { From accepted.code.k (alpha accepted.code) shares.now.points shares.now.rows (λ X C. Holds (deep accepted.code) (alpha accepted.code) result (gathered accepted.code X C)) }
{
    let code = accepted.code;
    if code.kind == MBR {
        mbr(shares, code.k as usize, code.d as usize)
    } else {
        msr(shares, (code.k - 1) as usize)
    }
}

// The message read off the matrix, symbol by symbol.
fn read_off(accepted: Accepted, g: &Square, output: &mut [u8])
    requires { length output.old ≡ bytes accepted.code }
    ensures { output.new ≡ table (bytes accepted.code) (λ b. cells g.now (lane accepted.code b * alpha accepted.code + row_of accepted.code b) (col_of accepted.code b)) }
{
    let code = accepted.code;
    let a = code.alpha();
    for (b, symbol) in output.iter_mut().enumerate() {
        let cell = code.cell(b as u16);
        let row = cell.lane * a + cell.row;
        let col = cell.col;
        *symbol = entry(g, row, col);
    }
}

// The message that the shares of the nodes give, into the output.
pub fn gather(accepted: Accepted, nodes: &[u8], shares: &[u8], output: &mut [u8])
    requires { (length nodes.now ≡ accepted.code.k) × (length shares.now ≡ accepted.code.k * alpha accepted.code) × (length output.old ≡ bytes accepted.code) }
    ensures { output.new ≡ collected accepted.code nodes.now shares.now }
{
    let code = accepted.code;
    let given = Shares {
        points: points_of(code.points, nodes),
        rows: shares_in(shares, code.k as usize, code.alpha()),
        products: Products::new(),
    };
    let g = gathered(accepted, &given);
    read_off(accepted, &g, output);
}
