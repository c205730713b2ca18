// The worked cases of document 01 that are run and not proved: the edges of the judge, and then the midnight story.
#![tactic(auto)]

use answers::Stdout;
use std::fmt;

mod answers; // answers.rt: standard output, and how an answer is printed
mod edges; // edges.rt: codes at the edges of their rules
mod midnight; // midnight.rt: slips delivered twice, a share lost and rebuilt

fn run(out: &mut Stdout) -> fmt::Result {
    edges::sizes(out)?;
    edges::kinds(out)?;
    edges::points(out)?;
    midnight::midnight(out)
}

fn main() {
    // No write is told as failed, so this is Ok: the cases run to their end, and the status is 0.
    let _ = run(&mut Stdout);
}
