// What is made once for all stripes of a file: a node's encoding row of an accepted code, with the table of products.
ghost use Rattle.std.specs.Prelude.{◌≡◌, length};
ghost use Rattle.codes.specs.Share.{share, symbol_for};
ghost use Rattle.codes.specs.Sizes.{alpha, bytes};
ghost use Rattle.stripes.specs.Lent.{row_bytes};
ghost use Rattle.shares.specs.Fields.{stripe_record};

use codes::{Accepted, Node};
use field::{Products, Symbol};
use shares::stripe_record;
use stripes::{encode_by, help_by};

#[derive(Drop)]
pub struct Row {
    pub accepted: Accepted,
    pub node: Node,
    bytes: [u8; 31],
    products: Products,
    ghost of_node: { bytes ≡ row_bytes accepted.code node.0 },
}

impl Row {
    pub fn new(accepted: Accepted, node: Node) -> Row
        ensures { (result.accepted.code ≡ accepted.code) × (result.node ≡ node) }
    {
        Row {
            accepted,
            node,
            bytes: stripes::row(accepted.code, node),
            products: Products::new(),
        }
    }

    // The D record of the node's share of one stripe of a book.
    pub fn record(&self, i: u16, message: &[u8]) -> [u8; 34]
        requires { length message.now ≡ bytes self.now.accepted.code }
        ensures { result ≡ stripe_record i (share self.now.accepted.code self.now.node.0 message.now) }
    {
        let code = self.accepted.code;
        let mut room = [0u8; 31];
        let share = &mut room[..code.alpha()];
        encode_by(code, &self.bytes, &self.products.bytes, message, share);
        stripe_record(i, share)
    }

    // What a helper with a share of one stripe sends for the node.
    pub fn symbol(&self, share: &[u8]) -> Symbol
        requires { length share.now ≡ alpha self.now.accepted.code }
        ensures { result.0 ≡ (symbol_for self.now.accepted.code self.now.node.0 share.now).val }
    {
        help_by(&self.bytes, &self.products.bytes, share)
    }
}
