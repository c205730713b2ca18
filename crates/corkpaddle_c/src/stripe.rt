// The exports for one stripe: each calls the library's function and states its clauses again.
ghost use Rattle.std.specs.Prelude.{◌≡◌};
ghost use Rattle.codes.specs.Body.{code_at};
ghost use Rattle.codes.specs.Judge.{judged};
ghost use Rattle.stripes.specs.Encode.{encoded, encode_leaves};
ghost use Rattle.rebuilds.specs.Rebuild.{rebuild_told, rebuild_leaves};
ghost use Rattle.collects.specs.Collect.{collect_told, collect_leaves};
ghost use Rattle.corkpaddle.specs.Boundary.{Says, coded, kept};
ghost use Rattle.corkpaddle.specs.Help.{help_told, help_leaves};

use corkpaddle::{Answer, stripe};

// Whether the code is accepted.
#[unsafe(no_mangle)]
pub extern "C" fn corkpaddle_judge(code: &[u8]) -> Answer
    ensures { Says result (coded code.now (judged (code_at code.now 0))) }
{
    stripe::corkpaddle_judge(code)
}

// The share of a node of one message stripe.
#[unsafe(no_mangle)]
pub extern "C" fn corkpaddle_encode(
    code: &[u8],
    node: u8,
    message: &[u8],
    output: &mut [u8],
) -> Answer
    ensures answer { Says result (coded code.now (encoded (code_at code.now 0) node message.now output.old)) }
    ensures written { output.new ≡ kept code.now output.old (encode_leaves (code_at code.now 0) node message.now output.old) }
{
    stripe::corkpaddle_encode(code, node, message, output)
}

// What a helper with this share sends for a failed node, into an output of one byte.
#[unsafe(no_mangle)]
pub extern "C" fn corkpaddle_help(
    code: &[u8],
    helper: u8,
    failed: u8,
    share: &[u8],
    output: &mut [u8],
) -> Answer
    ensures answer { Says result (coded code.now (help_told (code_at code.now 0) helper failed share.now output.old)) }
    ensures written { output.new ≡ kept code.now output.old (help_leaves (code_at code.now 0) helper failed share.now output.old) }
{
    stripe::corkpaddle_help(code, helper, failed, share, output)
}

// The share of a failed node from its helpers' nodes, symbols and slip counts, which stand in one order; the helpers' count.
#[unsafe(no_mangle)]
pub extern "C" fn corkpaddle_rebuild(
    code: &[u8],
    failed: u8,
    nodes: &[u8],
    symbols: &[u8],
    counts: &[u32],
    output: &mut [u8],
) -> Answer
    ensures answer { Says result (coded code.now (rebuild_told (code_at code.now 0) failed nodes.now symbols.now counts.now output.old)) }
    ensures written { output.new ≡ kept code.now output.old (rebuild_leaves (code_at code.now 0) failed nodes.now symbols.now counts.now output.old) }
{
    stripe::corkpaddle_rebuild(code, failed, nodes, symbols, counts, output)
}

// The message stripe from k shares in one run, with their nodes and slip counts in the same order; the shares' count.
#[unsafe(no_mangle)]
pub extern "C" fn corkpaddle_collect(
    code: &[u8],
    nodes: &[u8],
    counts: &[u32],
    shares: &[u8],
    output: &mut [u8],
) -> Answer
    ensures answer { Says result (coded code.now (collect_told (code_at code.now 0) nodes.now counts.now shares.now output.old)) }
    ensures written { output.new ≡ kept code.now output.old (collect_leaves (code_at code.now 0) nodes.now counts.now shares.now output.old) }
{
    stripe::corkpaddle_collect(code, nodes, counts, shares, output)
}
