// The product, the quotient and powers of symbols, by their logarithms. 0 has no logarithm and goes first.
ghost use Rattle.std.specs.Prelude.{◌≡◌};
ghost use Rattle.field.specs.Field.{mul, pow, quotient};

use crate::Symbol;
use crate::antilogs::antilog;
use crate::logs::log;

// Stays: the byte against 0, since it is the byte that is looked up next; a comparison of symbols is no plainer.
impl Symbol {
    #[tactic(auto, using(crate::proofs::Lookup::by_logarithms))]
    pub fn times(self, b: Symbol) -> Symbol
        ensures { result.0 ≡ mul self.0 b.0 }
    {
        if self.0 == 0 || b.0 == 0 {
            return Symbol::ZERO;
        }
        Symbol(antilog((log(self.0) + log(b.0)) % 255))
    }

    #[tactic(auto, using(crate::proofs::Lookup::by_logarithms))]
    pub fn over(self, divisor: Symbol) -> Symbol
        ensures { result.0 ≡ quotient self.0 divisor.0 }
    {
        if self.0 == 0 || divisor.0 == 0 {
            return Symbol::ZERO; // also by zero
        }
        Symbol(antilog((log(self.0) + 255 - log(divisor.0)) % 255))
    }

    #[tactic(auto, using(crate::proofs::Lookup::by_logarithms))]
    pub fn power(self, n: usize) -> Symbol
        ensures { result.0 ≡ pow self.0 n }
    {
        if n == 0 {
            return Symbol::ONE; // also that of zero
        }
        if self.0 == 0 {
            return Symbol::ZERO;
        }
        Symbol(antilog(log(self.0) * (n % 255) % 255))
    }
}
