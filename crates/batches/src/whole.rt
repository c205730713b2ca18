// A whole share file rebuilt from a batch for each stripe. All batches are judged before anything is written.
ghost use Rattle.std.specs.Prelude.{◌≡◌, ◌*◌, ◌≤◌, ◌<◌, length, IfOk, OnOk};
ghost use Rattle.records.specs.Writing.{put_at};
ghost use Rattle.codes.specs.Told.{answered};
ghost use Rattle.codes.specs.Judge.{pair_in, say_judged};
ghost use Rattle.rebuilds.specs.Rebuild.{say_counted};
ghost use Rattle.shares.specs.Fields.{stripe_at};
ghost use Rattle.batches.specs.Batch.{count_at};
ghost use Rattle.batches.specs.Whole.{batch_of, faults_from, records_from, whole_reasons, whole_told, whole_leaves};

use crate::reading::{Batch, COUNT};
use codes::{Accepted, Code, Node, Refusal};
use field::Products;
use records::numbers::number4;
use records::writing::put;
use shares::{code_record, judge_total, node_record, stripe_at};

// The batches of a file, one for each stripe, one after the other; there is at least one.
#[derive(Clone, Copy)]
struct Batches<'a> {
    code: Accepted,
    total: u16,
    bytes: &'a [u8],
    ghost whole: { length bytes.now ≡ total * (code.code.d * 10) },
    ghost some: { 1 ≤ total },
}

impl Batches<'_> {
    // The batch of the stripe i.
    fn of(&self, i: u16) -> Batch<'_>
        requires { i < self.now.total }
        ensures code { result.code.code ≡ self.now.code.code }
        ensures bytes { result.bytes.now ≡ batch_of self.now.code.code.d self.now.bytes.now i }
    {
        let size = usize::from(self.code.code.d) * 10;
        let start = usize::from(i) * size;
        Batch {
            code: self.code,
            bytes: &self.bytes[start..start + size],
        }
    }

    // The file's count: that of the first record.
    fn count(&self) -> u32
        ensures { result ≡ count_at self.now.bytes.now 0 }
    {
        number4(self.bytes, COUNT)
    }

    // The first fault of all batches in turn.
    fn judge(&self, asked: Node) -> Result<(), Refusal>
        ensures { say_judged result ≡ answered (faults_from self.now.code.code asked.0 self.now.bytes.now 0 self.now.total) (pair_in self.now.code.code) 0 }
    {
        let count = self.count();
        for i in 0..self.total {
            let batch = self.of(i);
            batch.judge(asked, batch.count(0) != count, batch.stripe(0) == i)?;
        }
        Ok(())
    }

    // Puts the D records of all batches behind the first 45 bytes. A plan serves as long as the helpers stay the same.
    fn write(&self, asked: Node, output: &mut [u8])
        requires { length output.old ≡ stripe_at self.now.total }
        ensures { output.new ≡ put_at output.old 45 (records_from self.now.code.code asked.0 self.now.bytes.now 0 self.now.total) }
    {
        let t = Products::new();
        let mut planned = self.of(0);
        let mut plan = planned.plan(asked);
        for i in 0..self.total {
            let batch = self.of(i);
            if !batch.has_helpers_of(&planned) {
                plan = batch.plan(asked);
                planned = batch;
            }
            batch.write(&plan, &t, output, stripe_at(i));
        }
    }
}

// The batches of so many bytes, where a file's rebuild from them into the output is not refused.
fn judge_whole<'a>(
    code: Code,
    asked: Node,
    stripes: u32,
    bytes: &'a [u8],
    output: &[u8],
) -> Result<Batches<'a>, Refusal>
    ensures answer { say_judged result ≡ answered (whole_reasons code asked.0 stripes bytes.now output.now) (pair_in code) 0 }
    ensures same { IfOk result (λ b. (b.code.code ≡ code) × (b.total ≡ stripes) × (b.bytes.now ≡ bytes.now)) }
    ensures room { OnOk result (length output.now ≡ stripe_at stripes) }
{
    let code = judge_total(code, stripes)?;
    let total = stripes as u16;
    let size = usize::from(code.code.d) * 10;
    if bytes.len() != usize::from(total) * size || output.len() != stripe_at(total) {
        return Err(Refusal::Length);
    }
    let batches = Batches { code, total, bytes };
    batches.judge(asked)?;
    Ok(batches)
}

// Rebuilds the asked node's share file from one batch for each stripe, at the helpers' count.
pub fn rebuild_file(
    code: Code,
    asked: Node,
    stripes: u32,
    batches: &[u8],
    output: &mut [u8],
) -> Result<u32, Refusal>
    ensures told { say_counted result ≡ whole_told code asked.0 stripes batches.now output.old }
    ensures left { output.new ≡ whole_leaves code asked.0 stripes batches.now output.old }
{
    let batches = judge_whole(code, asked, stripes, batches, output)?;
    let count = batches.count();
    put(output, 0, &code_record(code));
    put(output, 37, &node_record(asked, batches.total, count));
    batches.write(asked, output);
    Ok(count)
}
