// What a change of a message's symbol adds to a byte of a share: the change times a power of the node's point.
ghost use Rattle.std.specs.Prelude.{◌≡◌, ℕ};
ghost use Rattle.algebra.specs.Symbol.{symbol, ◌⊗◌, pow};
ghost use Rattle.streams.specs.Ready.{Powers};

use field::{Products, Symbol};

pub trait Weighs {
    ghost point: { Self → ℕ };

    // What weighs at a point.
    fn at(x: Symbol) -> Self
        ensures { point result ≡ x.0 };

    // A change times the power n of the point.
    fn weigh(&self, n: usize, change: u8) -> u8
        ensures { result ≡ (symbol change ⊗ pow (symbol (point self.now)) n).val };
}

// A point by itself, for one slip: nothing is made for it.
impl Weighs for Symbol {
    ghost point = { λ x. x.0 };

    fn at(x: Symbol) -> Symbol {
        x
    }

    fn weigh(&self, n: usize, change: u8) -> u8 {
        Symbol::of(change).times(self.power(n)).0
    }
}

// A point with its first 31 powers and the right table, for a run of slips.
#[derive(Clone, Copy)]
pub struct Weights {
    point: Symbol,
    powers: [Symbol; 31],
    products: Products,
    ghost row: { Powers point.0 powers },
}

impl Weighs for Weights {
    ghost point = { λ w. w.point.0 };

    fn at(x: Symbol) -> Weights {
        Weights {
            point: x,
            powers: powers_of(x),
            products: Products::new(),
        }
    }

    fn weigh(&self, n: usize, change: u8) -> u8 {
        match self.powers.get(n) {
            Some(p) => self.products.times(Symbol::of(change), *p).0,
            None => self.point.weigh(n, change),
        }
    }
}

// The first 31 powers of a point.
// Stays: beside the row of `stripes`: symbols here, bytes there, and a public function for both would be no plainer.
fn powers_of(x: Symbol) -> [Symbol; 31]
    ensures { Powers x.0 result }
{
    let mut powers = [Symbol::ZERO; 31];
    for (i, p) in powers.iter_mut().enumerate() {
        *p = x.power(i);
    }
    powers
}
