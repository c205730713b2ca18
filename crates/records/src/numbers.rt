// Numbers in records: big-endian, of 2 or 4 bytes. A byte past the end counts 0.
ghost use Rattle.std.specs.Prelude.{◌≡◌, get_or, drop};
ghost use Rattle.records.specs.Numbers.{number_at, digits};

use std::array::from_fn;

// What stands from a place on: nothing where it is past the end.
fn rest_from(s: &[u8], at: usize) -> &[u8]
    ensures { result.now ≡ drop at s.now }
{
    s.get(at..).unwrap_or(&[])
}

// The byte at a place.
fn byte(s: &[u8], at: usize) -> u8
    ensures { result ≡ get_or s.now at 0 }
{
    s.get(at).copied().unwrap_or(0)
}

// Stays: two widths, here and below. Over a const width `from_fn` says nothing of what its closure holds, and the proof did not close.
#[tactic(auto, unfolding(crate::specs::Numbers::number_at))]
pub fn number2(s: &[u8], at: usize) -> u16
    ensures { result ≡ number_at 2 s.now at }
{
    let rest = rest_from(s, at);
    u16::from_be_bytes(from_fn(|i| byte(rest, i)))
}

// Where all four bytes stand there, none is tested for by itself. Two bytes cost no less so.
#[tactic(auto, unfolding(crate::specs::Numbers::number_at))]
pub fn number4(s: &[u8], at: usize) -> u32
    ensures { result ≡ number_at 4 s.now at }
{
    match rest_from(s, at) {
        [a, b, c, d, ..] => u32::from_be_bytes([*a, *b, *c, *d]),
        rest => u32::from_be_bytes(from_fn(|i| byte(rest, i))),
    }
}

#[tactic(auto, unfolding(crate::specs::Numbers::digits))]
pub fn bytes2(n: u16) -> [u8; 2]
    ensures { result ≡ digits 2 n }
{
    u16::to_be_bytes(n)
}

#[tactic(auto, unfolding(crate::specs::Numbers::digits))]
pub fn bytes4(n: u32) -> [u8; 4]
    ensures { result ≡ digits 4 n }
{
    u32::to_be_bytes(n)
}
