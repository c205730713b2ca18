// The field's operations for the comparison with the independent program. They are no part of the library's boundary.
#![tactic(auto)]

ghost use Rattle.std.specs.Prelude.{◌≡◌};
ghost use Rattle.field.specs.Field.{mul, quotient, pow};

use field::Symbol;

pub fn corkpaddle_product(a: u8, b: u8) -> u8
    ensures { result ≡ mul a b }
{
    Symbol::of(a).times(Symbol::of(b)).0
}

pub fn corkpaddle_quotient(a: u8, b: u8) -> u8
    ensures { result ≡ quotient a b }
{
    Symbol::of(a).over(Symbol::of(b)).0
}

pub fn corkpaddle_power(a: u8, n: usize) -> u8
    ensures { result ≡ pow a n }
{
    Symbol::of(a).power(n).0
}
