// Where an entry of the message matrix stands in the message. The definitions count row by row; the code has closed forms.
ghost use Rattle.std.specs.Prelude.{◌≡◌, Some, ◌+◌, ◌*◌, ◌-◌, ◌≤◌, ◌<◌};
ghost use Rattle.codes.specs.Sizes.{alpha};
ghost use Rattle.codes.specs.Places.{start, triangle};
ghost use Rattle.codes.specs.Matrix.{mbr, msr, matrix};
ghost use Rattle.stripes.specs.Arrays.{Placed};

use crate::shape::Shape;
use codes::MBR;

// Where row i of a triangle of w rows begins.
fn start_of(w: usize, i: usize) -> usize
    requires { (i ≤ w) × (w ≤ 31) }
    ensures { (result ≡ start w i) × (result ≤ 1000) }
{
    i * (2 * w + 1 - i) / 2
}

fn triangle_of(w: usize, i: usize, j: usize) -> usize
    requires { (i < w) × (j < w) × (w ≤ 31) }
    ensures { (result ≡ triangle w i j) × (result < start w w) }
{
    if i <= j {
        start_of(w, i) + (j - i)
    } else {
        start_of(w, j) + (i - j)
    }
}

// The place of T's entry in row i and column j.
fn beside(k: usize, d: usize, i: usize, j: usize) -> usize
    requires { (k ≤ d) × (d ≤ 31) × (i < k) × (j < d - k) }
    ensures { (result ≡ start k k + (i * (d - k) + j)) × (result < 496) }
{
    start_of(k, k) + (i * (d - k) + j)
}

fn mbr_place(k: usize, d: usize, i: usize, j: usize) -> Option<usize>
    requires { (k ≤ d) × (d ≤ 31) × (i < d) × (j < d) }
    ensures { Placed (λ f. mbr k d f i j) result }
{
    match (i < k, j < k) {
        (true, true) => Some(triangle_of(k, i, j)),
        (true, false) => Some(beside(k, d, i, j - k)),
        (false, true) => Some(beside(k, d, j, i - k)),
        (false, false) => None,
    }
}

fn msr_place(k: usize, i: usize, j: usize) -> usize
    requires { (2 ≤ k) × (k ≤ 16) × (i < 2 * k - 2) × (j < k - 1) }
    ensures { Placed (λ f. msr k f i j) (Some result) }
{
    let w = k - 1;
    if i < w {
        triangle_of(w, i, j)
    } else {
        start_of(w, w) + triangle_of(w, i - w, j)
    }
}

impl Shape {
    // The place in the message of the matrix's entry in row i and column j; none where no symbol stands there.
    pub fn place_of(&self, i: usize, j: usize) -> Option<usize>
        requires { (i < self.now.code.d) × (j < alpha self.now.code) }
        ensures { Placed (λ f. matrix self.now.code f i j) result }
    {
        let k = self.code.k as usize;
        if self.code.kind == MBR {
            mbr_place(k, self.code.d as usize, i, j)
        } else {
            Some(msr_place(k, i, j))
        }
    }
}
