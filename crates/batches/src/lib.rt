// A stripe and a whole share file rebuilt from batches of H records.
//
// Nothing is written before every batch has been judged.
#![tactic(auto)]

mod batch; // batch.rt: one stripe rebuilt from one batch
mod faults; // faults.rt: what is wrong with one batch
mod reading; // reading.rt: a batch, and what its records say
mod stripe; // stripe.rt: the D record that a batch gives
mod whole; // whole.rt: a whole file from a batch for each stripe

pub use batch::rebuild_batch;
pub use whole::rebuild_file;
