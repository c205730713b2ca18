// What is tested of a collection's inputs, in document 01's order. Nothing is written before all of it has passed.
ghost use Rattle.std.specs.Prelude.{◌≡◌, ◌&&◌, List, ℕ, ◌*◌, eqb, length, IfOk};
ghost use Rattle.codes.specs.Told.{answered};
ghost use Rattle.codes.specs.Judge.{say_judged, pair_in};
ghost use Rattle.codes.specs.Sizes.{alpha, bytes};
ghost use Rattle.collects.specs.Collect.{collect_reasons};

use codes::{Accepted, Code, Refusal};
use stripes::lists::{all_within, differ, repeats};

// Whether there are k nodes, counts and shares, and the output has room for the message.
fn are_whole(accepted: Accepted, nodes: usize, counts: usize, shares: usize, room: usize) -> bool
    ensures { result ≡ (eqb nodes accepted.code.k && eqb counts accepted.code.k && eqb shares (accepted.code.k * alpha accepted.code) && eqb room (bytes accepted.code)) }
{
    let code = accepted.code;
    let k = code.k as usize;
    nodes == k && counts == k && shares == k * code.alpha() && room == code.bytes()
}

// The code accepted, or the refusals of a collection into an output with room for so many bytes.
pub fn judge_collect(
    code: Code,
    nodes: &[u8],
    counts: &[u32],
    shares: &[u8],
    room: usize,
) -> Result<Accepted, Refusal>
    ensures answer { (o : List ℕ) → length o ≡ room → say_judged result ≡ answered (collect_reasons code nodes.now counts.now shares.now o) (pair_in code) 0 }
    ensures same { IfOk result (λ a. a.code ≡ code) }
{
    let accepted = codes::judge(code)?;
    if !are_whole(accepted, nodes.len(), counts.len(), shares.len(), room) {
        return Err(Refusal::Length);
    }
    if !all_within(code, nodes) {
        return Err(Refusal::Node);
    }
    if repeats(nodes) {
        return Err(Refusal::Repeat);
    }
    if differ(counts) {
        return Err(Refusal::Mixed);
    }
    Ok(accepted)
}
