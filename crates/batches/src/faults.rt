// What is wrong with one batch, in document 01's order: 1, 6, 7, 8, 10.
ghost use Rattle.std.specs.Prelude.{◌≡◌, eqb};
ghost use Rattle.codes.specs.Told.{answered};
ghost use Rattle.codes.specs.Judge.{pair_in, say_judged};
ghost use Rattle.shares.specs.File.{below};
ghost use Rattle.batches.specs.Batch.{help_kind, faults, noded, repeated};
ghost use Rattle.batches.specs.Tests.{alike};

use crate::reading::{Batch, FAILED, HELPER, KIND};
use codes::{Node, Refusal};
use records::kinds::HELP;
use stripes::lists::{has, is_within, repeats};

impl Batch<'_> {
    // Whether each record is one of a helper's.
    fn are_helps(&self) -> bool
        ensures { result ≡ below self.now.code.code.d (λ r. eqb (help_kind self.now.bytes.now r) 0x48) }
    {
        (0..self.d()).all(|r| self.byte(r, KIND) == HELP)
    }

    // Whether the failed node and the helper of each record are nodes of the code.
    fn are_noded(&self) -> bool
        ensures { result ≡ below self.now.code.code.d (noded self.now.code.code self.now.bytes.now) }
    {
        let code = self.code.code;
        (0..self.d()).all(|r| is_within(code, self.byte(r, FAILED))
            && is_within(code, self.byte(r, HELPER)))
    }

    // Whether the asked node is among the helpers, or a helper stands there twice.
    fn are_repeated(&self, asked: Node) -> bool
        ensures { result ≡ repeated asked.0 self.now.code.code.d self.now.bytes.now }
    {
        let column = self.column(HELPER);
        let helpers = &column[..self.d()];
        has(helpers, 0, asked.0) || repeats(helpers)
    }

    // Whether each record names the asked node, and the first one's count and stripe.
    fn are_alike(&self, asked: Node) -> bool
        ensures { result ≡ below self.now.code.code.d (alike asked.0 self.now.bytes.now) }
    {
        let count = self.count(0);
        let stripe = self.stripe(0);
        (0..self.d()).all(|r| self.byte(r, FAILED) == asked.0
            && count == self.count(r)
            && stripe == self.stripe(r))
    }

    // The first fault. other: the batch has another count than it must have; placed: it names the stripe that it must name.
    // Stays: two tests handed in. The definition `faults` names both, and another form is no plainer.
    pub fn judge(&self, asked: Node, other: bool, placed: bool) -> Result<(), Refusal>
        ensures { say_judged result ≡ answered (faults self.now.code.code asked.0 self.now.bytes.now other placed) (pair_in self.now.code.code) 0 }
    {
        if !self.are_helps() {
            return Err(Refusal::Record);
        }
        if !is_within(self.code.code, asked.0) || !self.are_noded() {
            return Err(Refusal::Node);
        }
        if self.are_repeated(asked) {
            return Err(Refusal::Repeat);
        }
        if !self.are_alike(asked) || other {
            return Err(Refusal::Mixed);
        }
        if !placed {
            return Err(Refusal::Place);
        }
        Ok(())
    }
}
