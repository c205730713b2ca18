// Places in a share file.
ghost use Rattle.std.specs.Prelude.{◌≡◌, ◌≤◌};
ghost use Rattle.shares.specs.Fields.{stripe_at};

// Where the N record begins.
pub const NODE_AT: usize = 37;

// Where the stripe total stands.
pub const TOTAL_AT: usize = 39;

// Where the count stands.
pub const COUNT_AT: usize = 41;

// Where the D record of a stripe begins.
pub fn stripe_at(i: u16) -> usize
    ensures { (result ≡ stripe_at i) × (result ≤ 2228235) }
{
    45 + 34 * usize::from(i)
}
