// Squares of 31 by 31 bytes: rows, columns and their products by the lent products, which are made once for a stripe.
ghost use Rattle.std.specs.Prelude.{◌≡◌, ℕ, ◌+◌, ◌≤◌, ◌<◌, get_or};
ghost use Rattle.algebra.specs.Symbol.{symbol, 𝟘};
ghost use Rattle.algebra.specs.Sums.{Same, pick, dot, flip};
ghost use Rattle.algebra.specs.Bytes.{at};
ghost use Rattle.collects.specs.Squares.{cells, Holds, Copied};

use field::{Products, Symbol};

pub type Row = [u8; 31];

// Stays: sizes beside an array, each at most 31 in the clauses, since the library has no heap; one square is read at several sizes.
pub type Square = [Row; 31];

// The byte in row i and column j.
pub fn entry(g: &Square, i: usize, j: usize) -> u8
    requires { (i < 31) × (j < 31) }
    ensures { symbol result ≡ cells g.now i j }
{
    g[i][j]
}

// The sum of the products of n entries.
pub fn dot(u: &Row, v: &Row, n: usize, t: &Products) -> u8
    requires { n ≤ 31 }
    ensures { symbol result ≡ dot n (at u.now) (at v.now) }
{
    let mut sum: u8 = 0;
    // Stays: a zip of the two with a fold takes nine in a hundred more instructions, and this is the hot loop.
    for i in 0..n {
        sum ^= t.times(Symbol(u[i]), Symbol(v[i])).0;
    }
    sum
}

// The row of what f gives at each of the first n places.
// Stays: a loop over places, since the place is what f is asked.
pub fn row<F: Fn(usize) -> u8>(n: usize, f: F) -> Row
    requires fits { n ≤ 31 }
    requires callable { (i : ℕ) → i < n → F.pre f i }
    ensures { (i : ℕ) → i < n → F.post f i (get_or result i 0) }
{
    let mut v = [0u8; 31];
    for i in 0..n {
        v[i] = f(i);
    }
    v
}

// The first n entries of the column j.
pub fn column(g: &Square, j: usize, n: usize) -> Row
    requires { (j < 31) × (n ≤ 31) }
    ensures { Same n (at result) (λ i. cells g.now i j) }
{
    row(n, |i| g[i][j])
}

// Rows and columns exchanged, of the first n by n.
pub fn flip(g: &Square, n: usize) -> Square
    requires { n ≤ 31 }
    ensures { Holds n n result (flip (cells g.now)) }
{
    let mut f = [[0u8; 31]; 31];
    // Stays: a closure that gives a row needs both clauses written out, here and where other squares are filled.
    for j in 0..n {
        f[j] = column(g, j, n);
    }
    f
}

// The first m rows of f, each times the column y of n entries.
pub fn times(f: &Square, y: &Row, m: usize, n: usize, t: &Products) -> Row
    requires { (m ≤ 31) × (n ≤ 31) }
    ensures { Same m (at result) (λ i. dot n (at y.now) (cells f.now i)) }
{
    let mut v = [0u8; 31];
    // Stays: a loop, which is hot. By a closure it takes more instructions.
    for i in 0..m {
        v[i] = dot(y, &f[i], n, t);
    }
    v
}

// The same for each row of y from one row to another, as rows of a new square.
pub fn times_each(
    f: &Square,
    y: &Square,
    m: usize,
    n: usize,
    from: usize,
    to: usize,
    t: &Products,
) -> Square
    requires { (m ≤ 31) × (n ≤ 31) × (from ≤ to) × (to ≤ 31) }
    ensures { Holds to m result (λ j i. pick j from 𝟘 (dot n (cells y.now j) (cells f.now i))) }
{
    let mut g = [[0u8; 31]; 31];
    for j in from..to {
        g[j] = times(f, &y[j], m, n, t);
    }
    g
}

// m rows of h, from row b on, in place of those of g from row a on.
pub fn copy_rows(mut g: Square, a: usize, h: &Square, b: usize, m: usize) -> Square
    requires { (a + m ≤ 31) × (b + m ≤ 31) }
    ensures { Copied g a h.now b m result }
{
    g[a..a + m].copy_from_slice(&h[b..b + m]);
    g
}
