// The right table of products, made once for a stripe or a file and lent to each product. A product by it is the field's product.
ghost use Rattle.std.specs.Prelude.{◌≡◌};
ghost use Rattle.field.specs.Field.{add, mul, quotient};
ghost use Rattle.field.specs.Tables.{tables};

use crate::{Symbol, lent};

#[derive(Clone, Copy)]
pub struct Products {
    pub bytes: [u8; 768],
    ghost right: { bytes ≡ tables },
}

impl Products {
    pub fn new() -> Products
        ensures { result.bytes ≡ tables }
    {
        Products {
            bytes: lent::tables(),
        }
    }

    #[tactic(auto, using(crate::proofs::Lookup::by_the_table))]
    pub fn times(&self, a: Symbol, b: Symbol) -> Symbol
        ensures { result.0 ≡ mul a.0 b.0 }
    {
        a.times_by(b, &self.bytes)
    }

    #[tactic(auto, using(crate::proofs::Lookup::by_the_table))]
    pub fn over(&self, a: Symbol, divisor: Symbol) -> Symbol
        ensures { result.0 ≡ quotient a.0 divisor.0 }
    {
        a.over_by(divisor, &self.bytes)
    }

    // Of bytes: a + x * b.
    pub fn raised(&self, a: u8, x: u8, b: u8) -> u8
        ensures { result ≡ add a (mul x b) }
    {
        a ^ self.times(Symbol(x), Symbol(b)).0
    }

    // Of bytes: (a + b) / (x + y).
    pub fn slope(&self, a: u8, b: u8, x: u8, y: u8) -> u8
        ensures { result ≡ quotient (add a b) (add x y) }
    {
        self.over(Symbol(a ^ b), Symbol(x ^ y)).0
    }
}
