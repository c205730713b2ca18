// Share files: judged, and their records as bytes.
//
// This crate knows no program and no boundary. A file comes in as a lent run of bytes, and every function answers every run.
#![tactic(auto)]

use codes::Node;

mod judging; // judging.rt: a share file judged, record by record
mod places; // places.rt: where the stripe total, the count and each D record stand
mod totals; // totals.rt: stripe totals, and a code judged together with one
mod writing; // writing.rt: C, N, D and H records as bytes

pub use judging::{code_in, judge_file};
pub use places::{COUNT_AT, TOTAL_AT, stripe_at};
pub use totals::{is_total, judge_total};
pub use writing::{code_record, help_record, node_record, stripe_record};

// What an accepted share file says of itself. Its code is read by code_in.
#[derive(Clone, Copy, PartialEq, Eq)]
pub struct Filed {
    pub node: Node,
    pub stripes: u16,
    pub count: u32,
}
