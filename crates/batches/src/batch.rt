// One stripe rebuilt from a batch of d records.
ghost use Rattle.std.specs.Prelude.{◌≡◌, length, IfOk, OnOk};
ghost use Rattle.codes.specs.Told.{answered};
ghost use Rattle.codes.specs.Judge.{pair_in, say_judged};
ghost use Rattle.rebuilds.specs.Rebuild.{say_counted};
ghost use Rattle.batches.specs.Batch.{batch_reasons, batch_told, batch_leaves};

use crate::reading::Batch;
use codes::{Code, Node, Refusal, judge};
use field::Products;

// The batch of so many bytes, where a rebuild from it into the output is not refused.
fn judge_batch<'a>(
    code: Code,
    asked: Node,
    bytes: &'a [u8],
    output: &[u8],
) -> Result<Batch<'a>, Refusal>
    ensures answer { say_judged result ≡ answered (batch_reasons code asked.0 bytes.now output.now) (pair_in code) 0 }
    ensures same { IfOk result (λ b. (b.code.code ≡ code) × (b.bytes.now ≡ bytes.now)) }
    ensures room { OnOk result (length output.now ≡ 34) }
{
    let code = judge(code)?;
    if bytes.len() != usize::from(code.code.d) * 10 || output.len() != 34 {
        return Err(Refusal::Length);
    }
    let batch = Batch { code, bytes };
    batch.judge(asked, false, batch.stripe(0) < 1024)?;
    Ok(batch)
}

// Rebuilds the asked node's share of the stripe that a batch names, and writes its D record.
pub fn rebuild_batch(
    code: Code,
    asked: Node,
    batch: &[u8],
    output: &mut [u8],
) -> Result<u32, Refusal>
    ensures told { say_counted result ≡ batch_told code asked.0 batch.now output.old }
    ensures left { output.new ≡ batch_leaves code asked.0 batch.now output.old }
{
    let batch = judge_batch(code, asked, batch, output)?;
    batch.write(&batch.plan(asked), &Products::new(), output, 0);
    Ok(batch.count(0))
}
