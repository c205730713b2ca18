// Document 01's code A: node 1 rebuilt from a list of triples, the helpers 2, 3 and 4 with the symbols 11, 14 and 7, in each order;
// then lists that are refused. For each, a line with the slip count and the share, or the refusal's number.
#![tactic(auto)]

use codes::{Code, MBR, Node};
use field::Symbol;
use std::fmt;
use std::fmt::Write;
use triples::{Helper, rebuild_from};

// Standard output, through the kit's `io`. A write that fails is passed over, and the next one is tried.
// Stays: in each program, since a crate more for twelve lines would be no plainer.
#[derive(Clone, Copy)]
struct Stdout;

impl fmt::Write for Stdout {
    fn write_str(&mut self, text: &str) -> fmt::Result {
        io::write_all(1, text.as_bytes());
        Ok(())
    }
}

fn show(out: &mut Stdout, label: &str, code: Code, helpers: [Helper; 3]) -> fmt::Result {
    let mut share = [0u8; 3];
    match rebuild_from(code, Node(1), &helpers, &mut share) {
        Ok(count) => {
            write!(out, "{label}: done")?;
            write!(out, " {count}, share")?;
        }
        Err(refusal) => {
            write!(out, "{label}: refused")?;
            write!(out, " {}, left", refusal.number())?;
        }
    }
    for symbol in share {
        write!(out, " {symbol}")?;
    }
    writeln!(out)
}

// A code of kind 1 with k = 2 and the points 1, 2, 3, 4; code A where n is 4 and d is 3.
fn code(n: u8, d: u8) -> Code {
    let mut points = [Symbol::ZERO; 32];
    points[..4].copy_from_slice(&[Symbol(1), Symbol(2), Symbol(3), Symbol(4)]);
    Code {
        kind: MBR,
        n,
        k: 2,
        d,
        points,
    }
}

fn helper(node: u8, symbol: u8, count: u32) -> Helper {
    Helper {
        node: Node(node),
        symbol: Symbol(symbol),
        count,
    }
}

fn orders(out: &mut Stdout) -> fmt::Result {
    let a = helper(2, 11, 9);
    let b = helper(3, 14, 9);
    let c = helper(4, 7, 9);
    let code = code(4, 3);
    show(out, "2 3 4", code, [a, b, c])?;
    show(out, "2 4 3", code, [a, c, b])?;
    show(out, "3 2 4", code, [b, a, c])?;
    show(out, "3 4 2", code, [b, c, a])?;
    show(out, "4 2 3", code, [c, a, b])?;
    show(out, "4 3 2", code, [c, b, a])
}

fn refusals(out: &mut Stdout) -> fmt::Result {
    let a = helper(2, 11, 9);
    let b = helper(3, 14, 9);
    let c = helper(4, 7, 9);
    show(out, "n = 33", code(33, 2), [a, a, a])?;
    show(
        out,
        "an unused point that is not zero",
        code(3, 2),
        [a, a, a],
    )?;
    show(out, "d = 2", code(4, 2), [a, b, c])?;
    show(out, "node 0", code(4, 3), [a, b, helper(0, 7, 9)])?;
    show(out, "node 5", code(4, 3), [a, b, helper(5, 7, 9)])?;
    show(out, "node 2 twice", code(4, 3), [a, b, a])?;
    show(out, "the failed node", code(4, 3), [a, b, helper(1, 7, 9)])?;
    show(out, "another count", code(4, 3), [a, b, helper(4, 7, 8)])
}

fn main() {
    let mut out = Stdout;
    // No write is told as failed, so these are Ok.
    let _ = orders(&mut out);
    let _ = refusals(&mut out);
}
