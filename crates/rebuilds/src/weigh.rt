// The plan of a rebuild: the weights that the solutions for the helpers give. It is made once for a set of helpers.
ghost use Rattle.std.specs.Prelude.{◌≡◌, ◌≤◌, ◌<◌, length};
ghost use Rattle.algebra.specs.Symbol.{symbol};
ghost use Rattle.algebra.specs.Bytes.{at, table};
ghost use Rattle.rebuilds.specs.Plan.{weighed};
ghost use Rattle.rebuilds.specs.Weights.{factor, folded, folded_rows};

use crate::Plan;
use codes::{Code, MBR, Node};
use field::{Products, Symbol};

// By what the second half of a solution is multiplied.
fn factor_of(code: Code, failed: Node) -> u8
    ensures { result ≡ (factor code failed.0).val }
{
    if code.kind == MBR {
        0
    } else {
        code.point(failed).power(code.alpha()).0
    }
}

// One weight: the entry j of a solution, and l times the entry a places on; past the end of the row an entry is 0.
fn weight(row: &[u8; 31], a: usize, l: u8, j: usize, t: &Products) -> u8
    requires { j < 31 }
    ensures { result ≡ (folded a (symbol l) (at row.now) j).val }
{
    if a <= j {
        return 0;
    }
    t.raised(row[j], l, row[j..].get(a).copied().unwrap_or(0))
}

// The weights that one solution gives.
fn weights(row: &[u8; 31], a: usize, l: u8, t: &Products) -> [u8; 31]
    ensures { result ≡ table 31 (folded a (symbol l) (at row.now)) }
{
    let mut w = [0u8; 31];
    for (j, x) in w.iter_mut().enumerate() {
        *x = weight(row, a, l, j, t);
    }
    w
}

// The weights that the solutions give, a row for each helper.
pub fn fold(code: Code, failed: Node, solved: [[u8; 31]; 31]) -> Plan
    requires { code.d ≤ 31 }
    ensures { result ≡ folded_rows code failed.0 solved }
{
    let t = Products::new();
    let a = code.alpha();
    let l = factor_of(code, failed);
    let mut p = [[0u8; 31]; 31];
    for u in 0..usize::from(code.d) {
        p[u] = weights(&solved[u], a, l, &t);
    }
    p
}

// One byte of the rebuilt share: the sum of the symbols times their weights in it.
pub fn weighed(plan: &Plan, t: &[u8; 768], symbols: &[u8], j: usize) -> u8
    requires { (length symbols.now ≤ 31) × (j < 31) }
    ensures { result ≡ (weighed plan.now t.now symbols.now j).val }
{
    let mut sum = 0;
    for (i, y) in symbols.iter().enumerate() {
        sum ^= Symbol::of(plan[i][j]).times_by(Symbol::of(*y), t).0;
    }
    sum
}
