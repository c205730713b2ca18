// A node's encoding row, made once for any number of stripes, and what a helper sends by a lent row and a lent table.
ghost use Rattle.std.specs.Prelude.{◌≡◌};
ghost use Rattle.algebra.specs.Symbol.{symbol, pow};
ghost use Rattle.algebra.specs.Bytes.{table};
ghost use Rattle.stripes.specs.Lent.{row_bytes, helped_by};

use crate::products::term;
use codes::{Code, Node};
use field::{Products, Symbol};

// The encoding row of a point: its powers.
pub fn row_of(x: Symbol, products: &Products) -> [u8; 31]
    ensures { result ≡ table 31 (pow (symbol x.0)) }
{
    let mut row = [0u8; 31];
    let mut power = Symbol::ONE;
    for byte in row.iter_mut() {
        *byte = power.0;
        power = products.times(x, power);
    }
    row
}

// The encoding row of a node, whatever its number: node 0 has the row of the first place, and past the last place a point is 0.
pub fn row(code: Code, node: Node) -> [u8; 31]
    ensures { result ≡ row_bytes code node.0 }
{
    row_of(code.point(node), &Products::new())
}

// What a helper sends, by the failed node's row and a table of products; 0 for a share of more than 31 bytes.
pub fn help_by(row: &[u8; 31], t: &[u8; 768], share: &[u8]) -> Symbol
    ensures { result.0 ≡ (helped_by row.now t.now share.now).val }
{
    if share.len() > 31 {
        return Symbol::ZERO;
    }
    let mut sum = Symbol::ZERO;
    for (j, byte) in share.iter().enumerate() {
        sum = sum.plus(term(row[j], Symbol::of(*byte), t));
    }
    sum
}
