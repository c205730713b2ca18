// The kinds and sizes that a code may have.
ghost use Rattle.std.specs.Prelude.{◌≡◌};
ghost use Rattle.codes.specs.Judge.{known, sized};

use crate::Code;

// The two kinds, by their bytes in a C record.
pub const MBR: u8 = 1;

pub const MSR: u8 = 2;

#[tactic(auto, unfolding(crate::specs::Judge::known))]
pub fn is_known(kind: u8) -> bool
    ensures { result ≡ known kind }
{
    kind == MBR || kind == MSR
}

#[tactic(auto, using(std::proofs::lemmas::Bool::Decides::nat_tests), unfolding(crate::specs::Judge::sized))]
pub fn is_sized(code: Code) -> bool
    ensures { result ≡ sized code }
{
    let Code { kind, n, k, d, .. } = code;
    (2..=32).contains(&n)
        && 1 <= k
        && k <= d
        && d < n
        && (kind != MSR || (2 <= k && d == 2 * k - 2))
}
