// Batches, whole share files and books, from outside. A code is the body of its C record, and is tested for its length before
// all else but a stripe total.
ghost use Rattle.std.specs.Prelude.{◌≡◌};
ghost use Rattle.codes.specs.Body.{code_at};
ghost use Rattle.batches.specs.Batch.{batch_told, batch_leaves};
ghost use Rattle.batches.specs.Whole.{whole_told, whole_leaves};
ghost use Rattle.books.specs.Cut.{cut_told, cut_leaves};
ghost use Rattle.corkpaddle.specs.Boundary.{Says, coded, kept};
ghost use Rattle.corkpaddle.specs.Totals.{misfit, coded_for};

use crate::Answer;
use crate::answers::{crossing, refused};
use crate::stripe::code_of;
use batches::{rebuild_batch, rebuild_file};
use books::cut;
use codes::{Node, Refusal};
use shares::is_total;

// The refusal of a code run of another length. A stripe total outside its rule has the smaller number.
fn refused_beside(stripes: u32) -> Answer
    ensures { Says result (misfit stripes) }
{
    if !is_total(stripes) {
        return refused(Refusal::Size);
    }
    refused(Refusal::Length)
}

// The D record of the asked node from a batch of its helpers' H records, into an output of 34 bytes; the helpers' count.
pub fn corkpaddle_rebuild_batch(code: &[u8], asked: u8, batch: &[u8], output: &mut [u8]) -> Answer
    ensures answer { Says result (coded code.now (batch_told (code_at code.now 0) asked batch.now output.old)) }
    ensures written { output.new ≡ kept code.now output.old (batch_leaves (code_at code.now 0) asked batch.now output.old) }
{
    let Some(code) = code_of(code) else {
        return refused(Refusal::Length);
    };
    crossing(rebuild_batch(code, Node(asked), batch, output))
}

// The share file of the asked node from a batch for each stripe, in order; the helpers' count.
pub fn corkpaddle_rebuild_file(
    code: &[u8],
    asked: u8,
    stripes: u32,
    batches: &[u8],
    output: &mut [u8],
) -> Answer
    ensures answer { Says result (coded_for code.now stripes (whole_told (code_at code.now 0) asked stripes batches.now output.old)) }
    ensures written { output.new ≡ kept code.now output.old (whole_leaves (code_at code.now 0) asked stripes batches.now output.old) }
{
    let Some(code) = code_of(code) else {
        return refused_beside(stripes);
    };
    crossing(rebuild_file(code, Node(asked), stripes, batches, output))
}

// The fresh share file of a node of a book.
pub fn corkpaddle_cut(code: &[u8], node: u8, stripes: u32, book: &[u8], output: &mut [u8]) -> Answer
    ensures answer { Says result (coded_for code.now stripes (cut_told (code_at code.now 0) node stripes book.now output.old)) }
    ensures written { output.new ≡ kept code.now output.old (cut_leaves (code_at code.now 0) node stripes book.now output.old) }
{
    let Some(code) = code_of(code) else {
        return refused_beside(stripes);
    };
    crossing(cut(code, Node(node), stripes, book, output))
}
