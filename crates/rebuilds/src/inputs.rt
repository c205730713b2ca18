// What is tested of a rebuild's inputs, in document 01's order. Nothing is written before all of it has passed.
ghost use Rattle.std.specs.Prelude.{◌≡◌, ◌&&◌, ◌||◌, List, ℕ, eqb, length, IfOk};
ghost use Rattle.codes.specs.Told.{answered};
ghost use Rattle.codes.specs.Judge.{say_judged, pair_in};
ghost use Rattle.codes.specs.Sizes.{alpha};
ghost use Rattle.stripes.specs.Lists.{every, has, repeats, within};
ghost use Rattle.rebuilds.specs.Rebuild.{rebuild_reasons};

use codes::{Accepted, Code, Refusal};
use stripes::lists::{all_within, differ, has, is_within, repeats};

// Whether each list has d entries, and the output has room for alpha.
fn are_long(code: Code, nodes: usize, symbols: usize, counts: usize, room: usize) -> bool
    ensures { result ≡ (eqb nodes code.d && eqb symbols code.d && eqb counts code.d && eqb room (alpha code)) }
{
    let d = usize::from(code.d);
    nodes == d && symbols == d && counts == d && room == code.alpha()
}

// Whether the failed node and its helpers are nodes of the code.
fn are_nodes(code: Code, failed: u8, nodes: &[u8]) -> bool
    ensures { result ≡ (within code failed && every (within code) nodes.now) }
{
    is_within(code, failed) && all_within(code, nodes)
}

// Whether the failed node is among its helpers, or a helper stands there twice.
fn are_repeated(failed: u8, nodes: &[u8]) -> bool
    ensures { result ≡ (has failed nodes.now || repeats nodes.now) }
{
    has(nodes, 0, failed) || repeats(nodes)
}

// The accepted code, or the refusals of a rebuild into an output with room for so many bytes.
pub fn judge_rebuild(
    code: Code,
    failed: u8,
    nodes: &[u8],
    symbols: &[u8],
    counts: &[u32],
    room: usize,
) -> Result<Accepted, Refusal>
    ensures answer { (o : List ℕ) → length o ≡ room → say_judged result ≡ answered (rebuild_reasons code failed nodes.now symbols.now counts.now o) (pair_in code) 0 }
    ensures same { IfOk result (λ a. a.code ≡ code) }
{
    let accepted = codes::judge(code)?;
    if !are_long(code, nodes.len(), symbols.len(), counts.len(), room) {
        return Err(Refusal::Length);
    }
    if !are_nodes(code, failed, nodes) {
        return Err(Refusal::Node);
    }
    if are_repeated(failed, nodes) {
        return Err(Refusal::Repeat);
    }
    if differ(counts) {
        return Err(Refusal::Mixed);
    }
    Ok(accepted)
}
