// A batch: d records of 10 bytes, and what each of them says.
ghost use Rattle.std.specs.Prelude.{◌≡◌, ◌*◌, ◌≤◌, ◌<◌, length, take, eqb};
ghost use Rattle.rebuilds.specs.Plan.{plan_of};
ghost use Rattle.shares.specs.File.{below};
ghost use Rattle.batches.specs.Batch.{list_of, field_of, helper_in, count_at, stripe_named, helpers_in};

use codes::{Accepted, Node};
use rebuilds::{Plan, plan};
use records::numbers::{number2, number4};

pub const KIND: usize = 0;

pub const FAILED: usize = 1;

pub const HELPER: usize = 2;

pub const COUNT: usize = 3;

const STRIPE: usize = 7;

pub const SYMBOL: usize = 9;

// A batch of a code: what each of d helpers sends for one stripe.
#[derive(Clone, Copy)]
pub struct Batch<'a> {
    pub code: Accepted,
    pub bytes: &'a [u8],
    ghost whole: { length bytes.now ≡ code.code.d * 10 },
}

impl Batch<'_> {
    pub fn d(&self) -> usize
        ensures { result ≡ self.now.code.code.d }
    {
        usize::from(self.code.code.d)
    }

    // The byte at a place of the record r.
    pub fn byte(&self, r: usize, at: usize) -> u8
        requires { (r < self.now.code.code.d) × (at < 10) }
        ensures { result ≡ field_of at self.now.bytes.now r }
    {
        self.bytes[10 * r + at]
    }

    // The count in the record r.
    pub fn count(&self, r: usize) -> u32
        requires { r ≤ self.now.code.code.d }
        ensures { result ≡ count_at self.now.bytes.now r }
    {
        number4(self.bytes, 10 * r + COUNT)
    }

    // The stripe that the record r names.
    pub fn stripe(&self, r: usize) -> u16
        requires { r ≤ self.now.code.code.d }
        ensures { result ≡ stripe_named self.now.bytes.now r }
    {
        number2(self.bytes, 10 * r + STRIPE)
    }

    // The byte at a place of each record, then zeros.
    // Stays: an array for the longest column, since the library has no heap.
    pub fn column(&self, at: usize) -> [u8; 31]
        requires { at < 10 }
        ensures { take self.now.code.code.d result ≡ list_of self.now.code.code.d (field_of at self.now.bytes.now) }
    {
        let mut column = [0; 31];
        // Stays: a loop over places, since the place is what `byte` is asked.
        for r in 0..self.d() {
            column[r] = self.byte(r, at);
        }
        column
    }

    // Whether each record names the helper that the other batch's record of the same number names.
    pub fn has_helpers_of(&self, other: &Batch<'_>) -> bool
        requires { other.now.code.code.d ≡ self.now.code.code.d }
        ensures { result ≡ below self.now.code.code.d (λ r. eqb (helper_in self.now.bytes.now r) (helper_in other.now.bytes.now r)) }
    {
        (0..self.d()).all(|r| self.byte(r, HELPER) == other.byte(r, HELPER))
    }

    // The plan of a rebuild of the asked node by the batch's helpers.
    pub fn plan(&self, asked: Node) -> Plan
        ensures { result ≡ plan_of self.now.code.code asked.0 (helpers_in self.now.code.code.d self.now.bytes.now) }
    {
        plan(self.code.code, asked, &self.column(HELPER)[..self.d()])
    }
}
