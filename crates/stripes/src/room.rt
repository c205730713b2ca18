// One stripe's arrays: the work room, the message matrix as a grid, and a lent row times the grid.
ghost use Rattle.std.specs.Prelude.{◌≡◌, ◌≤◌, length};
ghost use Rattle.algebra.specs.Bytes.{table};
ghost use Rattle.codes.specs.Sizes.{alpha};
ghost use Rattle.codes.specs.Matrix.{matrix};
ghost use Rattle.stripes.specs.Arrays.{symbol_at, cell_at, Held, Filled};
ghost use Rattle.stripes.specs.Lent.{weighed, lent_share};

use crate::products::term;
use crate::shape::Shape;
use field::Symbol;

// The message in the work room, which starts as 496 zeros.
// Stays: arrays for the longest message and matrix, by value and by index, forms that document 01 names.
fn room_of(message: &[u8]) -> [Symbol; 496]
    requires { length message.now ≤ 496 }
    ensures { Held message.now result }
{
    let mut room = [Symbol::ZERO; 496];
    for (i, byte) in message.iter().enumerate() {
        room[i] = Symbol::of(*byte);
    }
    room
}

// The lent row times the first d rows of the grid, a byte for each column that the output has.
fn times(row: &[u8; 31], grid: [[Symbol; 31]; 31], d: usize, t: &[u8; 768], output: &mut [u8])
    requires { (d ≤ 31) × (length output.old ≤ 31) }
    ensures { output.new ≡ table (length output.old) (λ j. weighed d row.now t.now (λ i. cell_at grid i j)) }
{
    for (j, byte) in output.iter_mut().enumerate() {
        let mut sum = Symbol::ZERO;
        for i in 0..d {
            sum = sum.plus(term(row[i], grid[i][j], t));
        }
        *byte = sum.0;
    }
}

impl Shape {
    // The message matrix as a grid, each entry from its place in the room.
    fn grid_of(&self, room: [Symbol; 496]) -> [[Symbol; 31]; 31]
        ensures { Filled result self.now.code.d (alpha self.now.code) (matrix self.now.code (symbol_at room)) }
    {
        let mut grid = [[Symbol::ZERO; 31]; 31];
        for i in 0..self.code.d as usize {
            for j in 0..self.code.alpha() {
                grid[i][j] = self
                    .place_of(i, j)
                    .map_or(Symbol::ZERO, |place| room[place]);
            }
        }
        grid
    }

    // A lent row times the message matrix, through the work room and the grid.
    pub fn write_by(&self, row: &[u8; 31], t: &[u8; 768], message: &[u8], output: &mut [u8])
        requires { (length message.now ≤ 496) × (length output.old ≡ alpha self.now.code) }
        ensures { output.new ≡ lent_share self.now.code row.now t.now message.now }
    {
        let grid = self.grid_of(room_of(message));
        times(row, grid, self.code.d as usize, t, output);
    }
}
