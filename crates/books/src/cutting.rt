// Cutting a book: the fresh share file of a node, stripe by stripe.
ghost use Rattle.std.specs.Prelude.{◌≡◌, ◌*◌, ◌≤◌, length};
ghost use Rattle.codes.specs.Sizes.{bytes};
ghost use Rattle.stripes.specs.Encode.{say_encoded};
ghost use Rattle.shares.specs.Fields.{stripe_at};
ghost use Rattle.shares.specs.Afresh.{afresh};
ghost use Rattle.books.specs.Cut.{cut_told, cut_leaves};

use crate::row::Row;
use codes::{Code, Node, Refusal};
use records::writing::put;
use shares::{code_record, judge_total, node_record, stripe_at};
use stripes::lists::is_within;

// The whole file of a book, by the node's row, over an output of its length.
fn write_file(row: &Row, stripes: u16, book: &[u8], output: &mut [u8])
    requires few { stripes ≤ 1024 }
    requires whole { length book.now ≡ stripes * bytes row.now.accepted.code }
    requires room { length output.old ≡ stripe_at stripes }
    ensures { output.new ≡ afresh row.now.accepted.code row.now.node.0 stripes 0 book.now }
{
    let code = row.accepted.code;
    put(output, 0, &code_record(code));
    put(output, 37, &node_record(row.node, stripes, 0));
    let b = code.bytes();
    for i in 0..stripes {
        let start = i as usize * b;
        let message = &book[start..start + b];
        put(output, stripe_at(i), &row.record(i, message));
    }
}

// Cuts a book: writes the node's fresh share file of it.
pub fn cut(
    code: Code,
    node: Node,
    stripes: u32,
    book: &[u8],
    output: &mut [u8],
) -> Result<(), Refusal>
    ensures told { say_encoded result ≡ cut_told code node.0 stripes book.now output.old }
    ensures left { output.new ≡ cut_leaves code node.0 stripes book.now output.old }
{
    let accepted = judge_total(code, stripes)?;
    let total = stripes as u16;
    if book.len() != stripes as usize * code.bytes() || output.len() != stripe_at(total) {
        return Err(Refusal::Length);
    }
    if !is_within(code, node.0) {
        return Err(Refusal::Node);
    }
    write_file(&Row::new(accepted, node), total, book, output);
    Ok(())
}
