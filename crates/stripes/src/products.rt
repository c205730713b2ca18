// A product by a lent table, which is made once for a stripe or for a file.
ghost use Rattle.std.specs.Prelude.{◌≡◌};
ghost use Rattle.field.specs.Tables.{by_table};
ghost use Rattle.algebra.specs.Symbol.{symbol};

use field::Symbol;

// The product as any table has it.
pub fn term(a: u8, b: Symbol, t: &[u8; 768]) -> Symbol
    ensures { result.0 ≡ (symbol (by_table t.now a (symbol b.0).val)).val }
{
    Symbol::of(a).times_by(b, t)
}
