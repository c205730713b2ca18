// The static library for the comparison: one export for each function of `probe`, with its clause.
// Stays: each export repeats its function, since a crate is a library for Rattle or one for C, and not both.
#![tactic(auto)]

ghost use Rattle.std.specs.Prelude.{◌≡◌};
ghost use Rattle.field.specs.Field.{mul, quotient, pow};

#[unsafe(no_mangle)]
pub extern "C" fn corkpaddle_product(a: u8, b: u8) -> u8
    ensures { result ≡ mul a b }
{
    probe::corkpaddle_product(a, b)
}

#[unsafe(no_mangle)]
pub extern "C" fn corkpaddle_quotient(a: u8, b: u8) -> u8
    ensures { result ≡ quotient a b }
{
    probe::corkpaddle_quotient(a, b)
}

#[unsafe(no_mangle)]
pub extern "C" fn corkpaddle_power(a: u8, n: usize) -> u8
    ensures { result ≡ pow a n }
{
    probe::corkpaddle_power(a, n)
}
