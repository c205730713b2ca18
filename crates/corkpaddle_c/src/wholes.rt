// The exports for batches, whole share files and books: each calls the library's function and states its clauses again.
ghost use Rattle.std.specs.Prelude.{◌≡◌};
ghost use Rattle.codes.specs.Body.{code_at};
ghost use Rattle.batches.specs.Batch.{batch_told, batch_leaves};
ghost use Rattle.batches.specs.Whole.{whole_told, whole_leaves};
ghost use Rattle.books.specs.Cut.{cut_told, cut_leaves};
ghost use Rattle.corkpaddle.specs.Boundary.{Says, coded, kept};
ghost use Rattle.corkpaddle.specs.Totals.{coded_for};

use corkpaddle::{Answer, wholes};

// The D record of the asked node from a batch of its helpers' H records, into an output of 34 bytes; the helpers' count.
#[unsafe(no_mangle)]
pub extern "C" fn corkpaddle_rebuild_batch(
    code: &[u8],
    asked: u8,
    batch: &[u8],
    output: &mut [u8],
) -> Answer
    ensures answer { Says result (coded code.now (batch_told (code_at code.now 0) asked batch.now output.old)) }
    ensures written { output.new ≡ kept code.now output.old (batch_leaves (code_at code.now 0) asked batch.now output.old) }
{
    wholes::corkpaddle_rebuild_batch(code, asked, batch, output)
}

// The share file of the asked node from a batch for each stripe, in order; the helpers' count.
#[unsafe(no_mangle)]
pub extern "C" fn corkpaddle_rebuild_file(
    code: &[u8],
    asked: u8,
    stripes: u32,
    batches: &[u8],
    output: &mut [u8],
) -> Answer
    ensures answer { Says result (coded_for code.now stripes (whole_told (code_at code.now 0) asked stripes batches.now output.old)) }
    ensures written { output.new ≡ kept code.now output.old (whole_leaves (code_at code.now 0) asked stripes batches.now output.old) }
{
    wholes::corkpaddle_rebuild_file(code, asked, stripes, batches, output)
}

// The fresh share file of a node of a book.
#[unsafe(no_mangle)]
pub extern "C" fn corkpaddle_cut(
    code: &[u8],
    node: u8,
    stripes: u32,
    book: &[u8],
    output: &mut [u8],
) -> Answer
    ensures answer { Says result (coded_for code.now stripes (cut_told (code_at code.now 0) node stripes book.now output.old)) }
    ensures written { output.new ≡ kept code.now output.old (cut_leaves (code_at code.now 0) node stripes book.now output.old) }
{
    wholes::corkpaddle_cut(code, node, stripes, book, output)
}
