// The product and the quotient by one table that the caller lends. A constant array is built anew at each use, and a lent one is not:
// a loop makes the table once and lends it at each turn.
ghost use Rattle.std.specs.Prelude.{◌≡◌};
ghost use Rattle.field.specs.Tables.{tables, by_table, over_table};

use crate::Symbol;
use crate::antilogs::POWERS;
use crate::logs::LOGS;

// Stays: the byte against 0, since it is the byte that is looked up next; a comparison of symbols is no plainer.
impl Symbol {
    // The product as a lent table has it; by `tables()` it is `times`.
    // Stays: beside `times`, as `over_by` beside `over`. Each is public with a promise of its own, and only the test for 0 is the same.
    #[tactic(auto, using(crate::proofs::Lookup::by_a_table), unfolding(crate::specs::Tables::by_table))]
    pub fn times_by(self, b: Symbol, t: &[u8; 768]) -> Symbol
        ensures { result.0 ≡ by_table t.now self.0 b.0 }
    {
        if self.0 == 0 || b.0 == 0 {
            return Symbol::ZERO;
        }
        Symbol(t[256 + (t[self.0 as usize] as usize + t[b.0 as usize] as usize)])
    }

    // The quotient as a lent table has it; by `tables()` it is `over`.
    #[tactic(auto, using(crate::proofs::Lookup::by_a_table), unfolding(crate::specs::Tables::over_table))]
    pub fn over_by(self, divisor: Symbol, t: &[u8; 768]) -> Symbol
        ensures { result.0 ≡ over_table t.now self.0 divisor.0 }
    {
        if self.0 == 0 || divisor.0 == 0 {
            return Symbol::ZERO;
        }
        Symbol(t[256 + (t[self.0 as usize] as usize + 255 - t[divisor.0 as usize] as usize)])
    }
}

// 256 logarithms, and 512 powers after them: twice all, and two more.
pub fn tables() -> [u8; 768]
    ensures { result ≡ tables }
{
    let powers = POWERS;
    let mut all = [0u8; 768];
    all[..256].copy_from_slice(&LOGS);
    all[256..511].copy_from_slice(&powers);
    all[511..766].copy_from_slice(&powers);
    all[766..].copy_from_slice(&powers[..2]);
    all
}
