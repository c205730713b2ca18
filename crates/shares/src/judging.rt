// Judging a share file: record by record, the first faulty one decides.
ghost use Rattle.std.specs.Prelude.{◌≡◌, ◌+◌, ◌≤◌, length};
ghost use Rattle.shares.specs.Fields.{code_in};
ghost use Rattle.shares.specs.File.{below, spare, stripe_good, node_reasons, file_reasons, Says};

use crate::Filed;
use crate::places::{COUNT_AT, NODE_AT, TOTAL_AT, stripe_at};
use crate::totals::is_total;
use codes::{Code, Node, Refusal, code_at, judge};
use records::kinds::{CODE, NODE, STRIPE};
use records::numbers::{number2, number4};
use records::reading::{Found, read_as};
use stripes::lists::is_within;

// The code that the C record of a file says.
pub fn code_in(file: &[u8]) -> Code
    ensures { result ≡ code_in file.now }
{
    code_at(file, 1)
}

// Whether of the 31 symbols at a place those past the first a are zero.
fn is_spare(file: &[u8], at: usize, a: usize) -> bool
    requires { at + 31 ≤ length file.now }
    ensures { result ≡ spare a file.now at }
{
    // Stays: a loop, which is hot. By `all` each symbol takes six instructions, and here five.
    for j in a..31 {
        if file[at + j] != 0 {
            return false;
        }
    }
    true
}

// Whether a whole D record of the stripe i stands in its turn, with zeros past the first a symbols.
fn is_stripe(file: &[u8], i: u16, a: usize) -> bool
    ensures { result ≡ stripe_good a file.now i }
{
    let Ok(Found { start, .. }) = read_as(file, stripe_at(i), STRIPE) else {
        return false;
    };
    number2(file, start) == i && is_spare(file, start + 2, a)
}

// Whether the D records of all stripes stand in their turn.
fn are_stripes(file: &[u8], total: u16, a: usize) -> bool
    ensures { result ≡ below total (stripe_good a file.now) }
{
    (0..total).all(|i| is_stripe(file, i, a))
}

// What the N record, and what follows it, say of a file whose C record holds the code.
fn judge_rest(file: &[u8], code: Code) -> Result<Filed, Refusal>
    requires { code ≡ code_in file.now }
    ensures { Says (node_reasons file.now) file.now result }
{
    let Ok(Found { start, .. }) = read_as(file, NODE_AT, NODE) else {
        return Err(Refusal::Record);
    };
    let node = Node(file[start]);
    let stripes = number2(file, TOTAL_AT);
    if !is_total(stripes.into()) {
        return Err(Refusal::Size);
    }
    if !is_within(code, node.0) {
        return Err(Refusal::Node);
    }
    if !are_stripes(file, stripes, code.alpha()) || file.len() != stripe_at(stripes) {
        return Err(Refusal::Record);
    }
    Ok(Filed {
        node,
        stripes,
        count: number4(file, COUNT_AT),
    })
}

// The judge of share files.
pub fn judge_file(file: &[u8]) -> Result<Filed, Refusal>
    ensures { Says (file_reasons file.now) file.now result }
{
    let Ok(_) = read_as(file, 0, CODE) else {
        return Err(Refusal::Record);
    };
    let code = judge(code_in(file))?.code;
    judge_rest(file, code)
}
