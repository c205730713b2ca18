// The outside boundary: what Rust and C programs link. Each exported function is thin, above the proved functions,
// takes any input and has a promise of its own. include/corkpaddle.h declares them.
#![tactic(auto)]

mod answers; // answers.rt: the answers of the proved functions, as they cross
pub mod files; // files.rt: the functions on one share file
mod help; // help.rt: a helper's symbol into a lent output
pub mod reader; // reader.rt: the reader of records
pub mod stripe; // stripe.rt: the functions on one stripe
pub mod wholes; // wholes.rt: batches, whole share files and books

// An answer as it crosses: document 01's number, the pair of refusal 4, and the slip count of a done answer.
// Stays: numbers in place of a Result, since no enum crosses to C.
#[repr(C)]
#[derive(Clone, Copy)]
pub struct Answer {
    pub number: u32,
    pub first: u32,
    pub second: u32,
    pub count: u32,
}
