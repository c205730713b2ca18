// Slips taken in share files: one by itself, or a run of them. With it the program's core: a share file at the start of a stream,
// and the run of slip records that follows it.
//
// Every function works on lent runs of bytes and answers every run. Reading and writing are the program's matter.
#![tactic(auto)]

mod heads; // heads.rt: how long a share file is, and whether it is refused
mod runs; // runs.rt: a run of slip records, taken one after the other
mod slips; // slips.rt: one slip taken in a file, which is judged first
mod station; // station.rt: one slip taken in a file that was judged before
mod weights; // weights.rt: a change times a power of the node's point

pub use heads::{file_length, refusal_of};
pub use runs::{Walked, take_run};
pub use slips::take_slip;
