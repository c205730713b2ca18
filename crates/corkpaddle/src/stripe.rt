// One stripe, from outside. A code is the body of its C record, and is tested for its length before all else.
ghost use Rattle.std.specs.Prelude.{◌≡◌, true, false, IfSome, IfNone};
ghost use Rattle.codes.specs.Body.{code_at};
ghost use Rattle.codes.specs.Judge.{judged};
ghost use Rattle.stripes.specs.Encode.{encoded, encode_leaves};
ghost use Rattle.rebuilds.specs.Rebuild.{rebuild_told, rebuild_leaves};
ghost use Rattle.collects.specs.Collect.{collect_told, collect_leaves};
ghost use Rattle.corkpaddle.specs.Boundary.{Says, is_code, coded, kept};
ghost use Rattle.corkpaddle.specs.Help.{help_told, help_leaves};

use crate::Answer;
use crate::answers::{crossing, refused};
use crate::help::help_into;
use codes::{Code, Node, Refusal, code_at, judge};
use collects::collect;
use rebuilds::rebuild;
use stripes::encode;

// The code in a run that is as long as one.
pub(crate) fn code_of(run: &[u8]) -> Option<Code>
    ensures some { IfSome result (λ k. (is_code run.now ≡ true) × (k ≡ code_at run.now 0)) }
    ensures none { IfNone result (is_code run.now ≡ false) }
{
    if run.len() == 36 {
        Some(code_at(run, 0))
    } else {
        None
    }
}

// Whether the code is accepted.
pub fn corkpaddle_judge(code: &[u8]) -> Answer
    ensures { Says result (coded code.now (judged (code_at code.now 0))) }
{
    let Some(code) = code_of(code) else {
        return refused(Refusal::Length);
    };
    crossing(judge(code))
}

// The share of a node of one message stripe.
pub fn corkpaddle_encode(code: &[u8], node: u8, message: &[u8], output: &mut [u8]) -> Answer
    ensures answer { Says result (coded code.now (encoded (code_at code.now 0) node message.now output.old)) }
    ensures written { output.new ≡ kept code.now output.old (encode_leaves (code_at code.now 0) node message.now output.old) }
{
    let Some(code) = code_of(code) else {
        return refused(Refusal::Length);
    };
    crossing(encode(code, Node(node), message, output))
}

// What a helper with this share sends for a failed node, into an output of one byte.
pub fn corkpaddle_help(
    code: &[u8],
    helper: u8,
    failed: u8,
    share: &[u8],
    output: &mut [u8],
) -> Answer
    ensures answer { Says result (coded code.now (help_told (code_at code.now 0) helper failed share.now output.old)) }
    ensures written { output.new ≡ kept code.now output.old (help_leaves (code_at code.now 0) helper failed share.now output.old) }
{
    let Some(code) = code_of(code) else {
        return refused(Refusal::Length);
    };
    crossing(help_into(code, Node(helper), Node(failed), share, output))
}

// The share of a failed node from its helpers' nodes, symbols and slip counts, which stand in one order; the helpers' count.
pub fn corkpaddle_rebuild(
    code: &[u8],
    failed: u8,
    nodes: &[u8],
    symbols: &[u8],
    counts: &[u32],
    output: &mut [u8],
) -> Answer
    ensures answer { Says result (coded code.now (rebuild_told (code_at code.now 0) failed nodes.now symbols.now counts.now output.old)) }
    ensures written { output.new ≡ kept code.now output.old (rebuild_leaves (code_at code.now 0) failed nodes.now symbols.now counts.now output.old) }
{
    let Some(code) = code_of(code) else {
        return refused(Refusal::Length);
    };
    crossing(rebuild(code, Node(failed), nodes, symbols, counts, output))
}

// The message stripe from k shares in one run, with their nodes and slip counts in the same order; the shares' count.
pub fn corkpaddle_collect(
    code: &[u8],
    nodes: &[u8],
    counts: &[u32],
    shares: &[u8],
    output: &mut [u8],
) -> Answer
    ensures answer { Says result (coded code.now (collect_told (code_at code.now 0) nodes.now counts.now shares.now output.old)) }
    ensures written { output.new ≡ kept code.now output.old (collect_leaves (code_at code.now 0) nodes.now counts.now shares.now output.old) }
{
    let Some(code) = code_of(code) else {
        return refused(Refusal::Length);
    };
    crossing(collect(code, nodes, counts, shares, output))
}
