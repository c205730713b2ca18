// Rebuilding from helpers as a list of triples that the caller lends: a thin function above the rebuild on plain runs.
#![tactic(auto)]

ghost use Rattle.std.specs.Prelude.{◌≡◌, ◌≤◌};
ghost use Rattle.rebuilds.specs.Rebuild.{rebuild_told, rebuild_leaves, say_counted};
ghost use Rattle.triples.specs.Lent.{lent_of};
ghost use Rattle.triples.specs.Triples.{nodes_of, symbols_of, counts_of};

use codes::{Code, Node, Refusal};
use field::Symbol;
use rebuilds::rebuild;

// One helper: its node, its symbol for the failed node, and its slip count.
#[derive(Clone, Copy)]
pub struct Helper {
    pub node: Node,
    pub symbol: Symbol,
    pub count: u32,
}

// How many of n helpers are lent on. More than 31 are too many for every code: none is lent then, which are too few for every code, so that
// the refusal is the same.
fn lent_of(n: usize) -> usize
    ensures number { result ≡ lent_of n }
    ensures few { result ≤ 31 }
    ensures within { result ≤ n }
{
    if n > 31 { 0 } else { n }
}

// A failed node's share of one stripe rebuilt from the helpers' list, written whole, or a refusal and nothing written.
pub fn rebuild_from(
    code: Code,
    failed: Node,
    helpers: &[Helper],
    output: &mut [u8],
) -> Result<u32, Refusal>
    ensures answer { say_counted result ≡ rebuild_told code failed.0 (nodes_of helpers.now) (symbols_of helpers.now) (counts_of helpers.now) output.old }
    ensures written { output.new ≡ rebuild_leaves code failed.0 (nodes_of helpers.now) (symbols_of helpers.now) (counts_of helpers.now) output.old }
{
    // Stays: an array for each column of the list, since `rebuild` takes three runs and the library has no heap.
    let mut nodes = [0u8; 31];
    let mut symbols = [0u8; 31];
    let mut counts = [0u32; 31];
    let n = lent_of(helpers.len());
    for (i, helper) in helpers[..n].iter().enumerate() {
        nodes[i] = helper.node.0;
        symbols[i] = helper.symbol.0;
        counts[i] = helper.count;
    }
    rebuild(
        code,
        failed,
        &nodes[..n],
        &symbols[..n],
        &counts[..n],
        output,
    )
}
