// Books and helpers: a book cut into share files, and what a share file answers for a failed node.
#![tactic(auto)]

mod answering; // answering.rt: what a station answers for a failed node
mod cutting; // cutting.rt: a book cut into the share file of a node
mod row; // row.rt: a node's row, made once for all stripes

pub use answering::answer_for;
pub use cutting::cut;
