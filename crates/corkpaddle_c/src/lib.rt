// The static library for C and Rust programs: one export for each function of `corkpaddle` that they call, with its clauses.
// A crate is a library for Rattle or a static library, and not both: the promises are proved in `corkpaddle`, and again of each export here.
// include/corkpaddle.h declares them.
// Stays: each export repeats its function, since a crate is a library for Rattle or one for C, and not both.
#![tactic(auto)]

mod files; // files.rt: the functions on one share file
mod reader; // reader.rt: the reader of records
mod stripe; // stripe.rt: the functions on one stripe
mod wholes; // wholes.rt: batches, whole share files and books
