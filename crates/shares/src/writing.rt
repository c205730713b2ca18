// The records of share files and of helpers' answers, as bytes.
ghost use Rattle.std.specs.Prelude.{◌≡◌, take};
ghost use Rattle.shares.specs.Fields.{code_record, node_record, stripe_record, help_record};

use codes::{Code, Node};
use field::Symbol;
use records::kinds::{CODE, HELP, NODE, STRIPE};
use records::numbers::{bytes2, bytes4};
use std::array;

// The C record of a code.
pub fn code_record(code: Code) -> [u8; 37]
    ensures { result ≡ code_record code }
{
    let mut record = [0; 37];
    record[..5].copy_from_slice(&[CODE, code.kind, code.n, code.k, code.d]);
    let points: [u8; 32] = array::from_fn(|i| code.points[i].0);
    record[5..].copy_from_slice(&points);
    record
}

// The N record of a node, a stripe total and a slip count.
pub fn node_record(node: Node, stripes: u16, count: u32) -> [u8; 8]
    ensures { result ≡ node_record node.0 stripes count }
{
    let [t0, t1] = bytes2(stripes);
    let [m0, m1, m2, m3] = bytes4(count);
    [NODE, node.0, t0, t1, m0, m1, m2, m3]
}

// The D record of a stripe and its share; of a share of more than 31 bytes the first 31 count.
pub fn stripe_record(stripe: u16, share: &[u8]) -> [u8; 34]
    ensures { result ≡ stripe_record stripe (take 31 share.now) }
{
    let [i0, i1] = bytes2(stripe);
    let share = &share[..share.len().min(31)];
    let mut record = [0; 34];
    record[..3].copy_from_slice(&[STRIPE, i0, i1]);
    record[3..3 + share.len()].copy_from_slice(share);
    record
}

// The H record of a helper: the failed node, its own, its count, the stripe and its symbol.
pub fn help_record(failed: Node, helper: Node, count: u32, stripe: u16, symbol: Symbol) -> [u8; 10]
    ensures { result ≡ help_record failed.0 helper.0 count stripe symbol.0 }
{
    let [m0, m1, m2, m3] = bytes4(count);
    let [i0, i1] = bytes2(stripe);
    [HELP, failed.0, helper.0, m0, m1, m2, m3, i0, i1, symbol.0]
}
