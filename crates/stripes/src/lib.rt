// One stripe: encoded, and helped with.
#![tactic(auto)]

ghost use Rattle.std.specs.Prelude.{◌≡◌};
ghost use Rattle.stripes.specs.Encode.{encoded, encode_leaves, say_encoded};
ghost use Rattle.stripes.specs.Help.{helped, say_helped};
ghost use Rattle.stripes.specs.Lent.{encoded_by};

use codes::{Code, Node, Refusal, judge};
use field::{Products, Symbol};

pub mod lists; // lists.rt: tests over lent lists of nodes and of counts
mod places; // places.rt: where an entry of the message matrix stands in the message
mod products; // products.rt: a product by a lent table
mod room; // room.rt: the work room, the message matrix, and row times matrix
mod rows; // rows.rt: a node's encoding row, and a helper's symbol by it
mod shape; // shape.rt: the codes whose message matrix has its shape

use lists::is_within;
use rows::row_of;
pub use rows::{help_by, row};
use shape::Shape;

// The share of a node of one message stripe, written whole; or a refusal, and nothing written.
pub fn encode(code: Code, node: Node, message: &[u8], output: &mut [u8]) -> Result<(), Refusal>
    ensures answer { say_encoded result ≡ encoded code node.0 message.now output.old }
    ensures written { output.new ≡ encode_leaves code node.0 message.now output.old }
{
    let accepted = judge(code)?;
    if message.len() != code.bytes() || output.len() != code.alpha() {
        return Err(Refusal::Length);
    }
    if !is_within(code, node.0) {
        return Err(Refusal::Node);
    }
    let products = Products::new();
    let row = row_of(code.point(node), &products);
    Shape::from(accepted).write_by(&row, &products.bytes, message, output);
    Ok(())
}

// The same by the node's row and a table of products, which are made once for any number of stripes. The points are not judged.
pub fn encode_by(code: Code, row: &[u8; 31], t: &[u8; 768], message: &[u8], output: &mut [u8])
    ensures { output.new ≡ encoded_by code row.now t.now message.now output.old }
{
    let Some(shape) = Shape::of(code) else {
        return;
    };
    if message.len() <= 496 && output.len() == code.alpha() {
        shape.write_by(row, t, message, output);
    }
}

// What a helper sends for a failed node: its share times the first alpha entries of the failed node's row.
pub fn help(code: Code, helper: Node, failed: Node, share: &[u8]) -> Result<Symbol, Refusal>
    ensures { say_helped result ≡ helped code helper.0 failed.0 share.now }
{
    judge(code)?;
    if share.len() != code.alpha() {
        return Err(Refusal::Length);
    }
    if !is_within(code, helper.0) || !is_within(code, failed.0) {
        return Err(Refusal::Node);
    }
    if helper == failed {
        return Err(Refusal::Repeat);
    }
    let products = Products::new();
    let row = row_of(code.point(failed), &products);
    Ok(help_by(&row, &products.bytes, share))
}
