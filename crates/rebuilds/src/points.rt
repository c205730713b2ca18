// The points of a list of nodes: what a rebuild and a collection solve by.
ghost use Rattle.std.specs.Prelude.{◌≡◌};
ghost use Rattle.algebra.specs.Bytes.{table};
ghost use Rattle.rebuilds.specs.Weights.{point_in, points_in};

use field::Symbol;

// The point of a node, whatever its number: node 0 reads the first place, and past the last place a point is 0.
// Stays: beside `Code::point`, since docs/PROMISES.md and the theorem point-of-equal name it, of the points alone.
pub fn point_of(points: [Symbol; 32], v: u8) -> u8
    ensures { result ≡ point_in points v }
{
    points
        .get(usize::from(v.saturating_sub(1)))
        .map_or(0, |x| x.0)
}

// The points of the first 31 nodes of a list.
pub fn points_of(points: [Symbol; 32], nodes: &[u8]) -> [u8; 31]
    ensures { result ≡ table 31 (points_in points nodes.now) }
{
    let mut xs = [0u8; 31];
    for (i, x) in xs.iter_mut().enumerate() {
        *x = point_of(points, nodes.get(i).copied().unwrap_or(0));
    }
    xs
}
