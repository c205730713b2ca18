// One stripe rebuilt: the plan of a rebuild, which depends only on the points, and its use on any number of stripes.
#![tactic(auto)]

ghost use Rattle.std.specs.Prelude.{◌≡◌};
ghost use Rattle.rebuilds.specs.Plan.{plan_of, applied};
ghost use Rattle.rebuilds.specs.Rebuild.{rebuild_told, rebuild_leaves, say_counted};

use codes::{Code, Node, Refusal};
use field::Products;

mod inputs; // inputs.rt: the tests of a rebuild's inputs
pub mod points; // points.rt: the points of a list of nodes
mod weigh; // weigh.rt: the weights of a plan

// The weight of each helper's symbol (the row) in each byte of the rebuilt share (the column).
// Stays: an array for the longest plan, since the library has no heap.
pub type Plan = [[u8; 31]; 31];

// The plan of a rebuild of the failed node by the helpers at nodes; zeros where d is more than 31.
pub fn plan(code: Code, failed: Node, nodes: &[u8]) -> Plan
    ensures { result ≡ plan_of code failed.0 nodes.now }
{
    if code.d > 31 {
        return [[0u8; 31]; 31];
    }
    let d = usize::from(code.d);
    let solved = solver::basis(points::points_of(code.points, nodes), d);
    weigh::fold(code, failed, solved)
}

// A stripe rebuilt by a plan and a lent table of products: each byte is the sum of the symbols times their weights.
pub fn rebuild_by(plan: &Plan, t: &[u8; 768], symbols: &[u8], output: &mut [u8])
    ensures { output.new ≡ applied plan.now t.now symbols.now output.old }
{
    if symbols.len() > 31 || output.len() > 31 {
        return;
    }
    for (j, byte) in output.iter_mut().enumerate() {
        *byte = weigh::weighed(plan, t, symbols, j);
    }
}

// A failed node's share of one stripe rebuilt from its helpers' symbols, written whole, or a refusal and nothing written.
pub fn rebuild(
    code: Code,
    failed: Node,
    nodes: &[u8],
    symbols: &[u8],
    counts: &[u32],
    output: &mut [u8],
) -> Result<u32, Refusal>
    ensures answer { say_counted result ≡ rebuild_told code failed.0 nodes.now symbols.now counts.now output.old }
    ensures written { output.new ≡ rebuild_leaves code failed.0 nodes.now symbols.now counts.now output.old }
{
    let accepted = inputs::judge_rebuild(code, failed.0, nodes, symbols, counts, output.len())?;
    let p = plan(accepted.code, failed, nodes);
    let t = Products::new();
    rebuild_by(&p, &t.bytes, symbols, output);
    Ok(counts[0])
}
