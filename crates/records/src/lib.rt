// Records: the six kinds, reading one at a place of a file, the numbers in a body, and writing bytes at a place.
//
// This crate knows no codes. A record is one byte of kind and a body whose length the kind fixes; what a body means is
// its reader's matter.
#![tactic(auto)]

pub mod kinds; // kinds.rt: the six kinds, and the length of each one's body
pub mod numbers; // numbers.rt: the numbers in a body, big-endian
pub mod reading; // reading.rt: one record at a place of a file, and its body
pub mod writing; // writing.rt: bytes put at a place
