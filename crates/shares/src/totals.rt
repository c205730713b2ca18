// Stripe totals, and the judge of a code together with one: a total outside its rule is one more fault of size.
ghost use Rattle.std.specs.Prelude.{◌≡◌, not, IfOk};
ghost use Rattle.codes.specs.Told.{answered};
ghost use Rattle.codes.specs.Judge.{pair_in, say_judged};
ghost use Rattle.shares.specs.File.{totalled};
ghost use Rattle.shares.specs.Total.{code_reasons};

use codes::{Accepted, Code, Refusal, is_known, judge};

// Whether a stripe total is within its rule.
pub fn is_total(t: u32) -> bool
    ensures { result ≡ totalled t }
{
    (1..=1024).contains(&t)
}

// Refusals 2, 3 and 4 of a code and a stripe total.
pub fn judge_total(code: Code, t: u32) -> Result<Accepted, Refusal>
    ensures answer { say_judged result ≡ answered (code_reasons code (not (totalled t))) (pair_in code) 0 }
    ensures same { IfOk result (λ a. a.code ≡ code) }
{
    if !is_known(code.kind) {
        return Err(Refusal::Kind);
    }
    if !is_total(t) {
        return Err(Refusal::Size);
    }
    judge(code)
}
