// Where a message's symbol stands in the message matrix: the fill order read the other way.
ghost use Rattle.std.specs.Prelude.{◌≡◌, ◌+◌, ◌/◌, ◌%◌, ◌≤◌};
ghost use Rattle.codes.specs.Places.{start, up_row, up_col};
ghost use Rattle.codes.specs.Matrix.{lane, row_of, col_of};

use crate::Code;
use crate::limits::MBR;

// A place of the message matrix. The row is counted in its lane: lane 0 has the first alpha rows, lane 1 those below.
#[derive(Clone, Copy)]
pub struct Cell {
    pub lane: usize,
    pub row: usize,
    pub col: usize,
}

// How many places the upper triangle of a square of w rows has.
fn triangle_size(w: usize) -> usize
    requires { w ≤ 255 }
    ensures { result ≡ start w w }
{
    w * (w + 1) / 2
}

// The place b of an upper triangle of w rows, which are read one after the other.
#[tactic(auto, using(crate::proofs::FillOrder::rows))]
fn in_triangle(lane: usize, w: usize, b: usize) -> Cell
    ensures { (result.lane ≡ lane) × (result.row ≡ up_row w b) × (result.col ≡ up_col w b) }
{
    let mut left = b;
    for row in 0..w {
        let wide = w - row;
        if left < wide {
            return Cell {
                lane,
                row,
                col: row + left,
            };
        }
        left -= wide;
    }
    Cell {
        lane,
        row: w,
        col: w,
    }
}

// The place b of a block of rows of w, beside k columns. A block without columns has its places in row 0.
fn beside(k: usize, w: usize, b: usize) -> Cell
    requires { (k ≤ 255) × (b ≤ 65535) }
    ensures { (result.lane ≡ 0) × (result.row ≡ b / w) × (result.col ≡ k + b % w) }
{
    let (row, col) = if w == 0 { (0, b) } else { (b / w, b % w) };
    Cell {
        lane: 0,
        row,
        col: k + col,
    }
}

impl Code {
    // The place of the message's symbol b; a place for codes that are refused, and past the message's end, too.
    pub fn cell(self, b: u16) -> Cell
        ensures { (result.lane ≡ lane self b) × (result.row ≡ row_of self b) × (result.col ≡ col_of self b) }
    {
        let at = usize::from(b);
        let k = usize::from(self.k);
        let w = if self.kind == MBR {
            k
        } else {
            k.saturating_sub(1)
        };
        let s = triangle_size(w);
        if at < s {
            in_triangle(0, w, at)
        } else if self.kind == MBR {
            beside(k, usize::from(self.d).saturating_sub(k), at - s)
        } else {
            in_triangle(1, w, at - s)
        }
    }
}
