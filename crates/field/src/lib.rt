// The field of 256 elements: a symbol, its sum, product, quotient and powers. Products go by logarithms, which two tables give.
#![tactic(auto)]

ghost use Rattle.std.specs.Prelude.{◌≡◌};
ghost use Rattle.field.specs.Field.{add, pow};

mod antilogs; // antilogs.rt: the table of powers
mod lent; // lent.rt: the product and the quotient by a table that the caller lends, for loops
mod logs; // logs.rt: the table of logarithms
mod product; // product.rt: the product, the quotient and powers
mod products; // products.rt: the right table, which is made once and lent

pub use lent::tables;
pub use products::Products;

// A byte that is a number of the field, and no other number.
#[derive(Clone, Copy, PartialEq, Eq)]
pub struct Symbol(pub u8);

impl Symbol {
    pub const ZERO: Symbol = Symbol(0);

    pub const ONE: Symbol = Symbol(1);

    pub const GENERATOR: Symbol = Symbol(2);

    // Stays: docs/PROMISES.md and the theorem of-equal name this function, and a From beside it would be a second spelling of it.
    pub fn of(byte: u8) -> Symbol
        ensures { result.0 ≡ byte }
    {
        Symbol(byte)
    }

    // The generator to the power n.
    pub fn generated(n: usize) -> Symbol
        ensures { result.0 ≡ pow 2 n }
    {
        Symbol::GENERATOR.power(n)
    }

    // The sum, which is the difference too.
    pub fn plus(self, b: Symbol) -> Symbol
        ensures { result.0 ≡ add self.0 b.0 }
    {
        Symbol(self.0 ^ b.0)
    }
}
