// The kinds of record, by their first byte, and the length of each one's body.
ghost use Rattle.std.specs.Prelude.{◌≡◌};
ghost use Rattle.records.specs.Kinds.{body_of};

// Stays: a kind is a byte of a file, of which any may stand there: compared and written, and branched on in body_of alone.
pub const CODE: u8 = 0x43;

pub const NODE: u8 = 0x4E;

pub const STRIPE: u8 = 0x44;

pub const SLIP: u8 = 0x50;

pub const HELP: u8 = 0x48;

pub const ANSWER: u8 = 0x45;

// The length of the body after a kind byte: 0 where there is no such kind.
#[tactic(auto, unfolding(crate::specs::Kinds::body_of))]
pub fn body_of(kind: u8) -> usize
    ensures { result ≡ body_of kind }
{
    match kind {
        CODE => 36,
        NODE => 7,
        STRIPE => 33,
        SLIP => 9,
        HELP => 9,
        ANSWER => 1,
        _ => 0,
    }
}
