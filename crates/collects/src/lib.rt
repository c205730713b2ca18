// One stripe collected: the message that the shares of k nodes give.
#![tactic(auto)]

ghost use Rattle.std.specs.Prelude.{◌≡◌};
ghost use Rattle.rebuilds.specs.Rebuild.{say_counted};
ghost use Rattle.collects.specs.Collect.{collect_told, collect_leaves};

use codes::{Code, Refusal};

mod gather; // gather.rt: the matrix gathered, and the message read off it
mod mbr; // mbr.rt: kind 1, T and then S
mod msr; // msr.rt: kind 2, P parted from Q, S1 and S2
mod sources; // sources.rt: the tests of a collection's inputs
mod square; // square.rt: squares of bytes, and their products

// The message of one stripe collected from the shares of k nodes, written whole, or a refusal and nothing written.
pub fn collect(
    code: Code,
    nodes: &[u8],
    counts: &[u32],
    shares: &[u8],
    output: &mut [u8],
) -> Result<u32, Refusal>
    ensures answer { say_counted result ≡ collect_told code nodes.now counts.now shares.now output.old }
    ensures written { output.new ≡ collect_leaves code nodes.now counts.now shares.now output.old }
{
    let accepted = sources::judge_collect(code, nodes, counts, shares, output.len())?;
    gather::gather(accepted, nodes, shares, output);
    Ok(counts[0])
}
