// The D record that a batch gives by a plan.
ghost use Rattle.std.specs.Prelude.{◌≡◌, ℕ, replicate};
ghost use Rattle.records.specs.Writing.{put_at};
ghost use Rattle.codes.specs.Sizes.{alpha};
ghost use Rattle.rebuilds.specs.Plan.{plan_of, applied};
ghost use Rattle.shares.specs.Fields.{stripe_record};
ghost use Rattle.batches.specs.Batch.{helpers_in, rebuilt_record, stripe_named, symbols_in};

use crate::reading::{Batch, SYMBOL};
use field::Products;
use rebuilds::{Plan, rebuild_by};
use records::writing::put;
use shares::stripe_record;

impl Batch<'_> {
    // Puts the D record at a place of the output, by any plan; by one that the batch's helpers give for an asked node it is that node's.
    pub fn write(&self, plan: &Plan, t: &Products, output: &mut [u8], at: usize)
        ensures by_plan { output.new ≡ put_at output.old at (stripe_record (stripe_named self.now.bytes.now 0)
            (applied plan.now t.now.bytes (symbols_in self.now.code.code.d self.now.bytes.now) (replicate (alpha self.now.code.code) 0))) }
        ensures rebuilt { (a : ℕ) → plan.now ≡ plan_of self.now.code.code a (helpers_in self.now.code.code.d self.now.bytes.now)
            → output.new ≡ put_at output.old at (rebuilt_record self.now.code.code a self.now.bytes.now) }
    {
        let d = self.d();
        let a = self.code.code.alpha();
        let symbols = self.column(SYMBOL);
        let mut share = [0; 31];
        rebuild_by(plan, &t.bytes, &symbols[..d], &mut share[..a]);
        put(output, at, &stripe_record(self.stripe(0), &share[..a]));
    }
}
