// The codes whose message matrix has its shape: of a known kind, and with sizes that keep their rule. Their points may be any.
ghost use Rattle.std.specs.Prelude.{◌≡◌, ◌&&◌, false, MatchOption};
ghost use Rattle.std.proofs.Props.{props};
ghost use Rattle.codes.specs.Judge.{known, sized};
ghost use Rattle.codes.specs.Known.{known_prop};
ghost use Rattle.codes.specs.Rules.{Known, Sized};

use codes::{Accepted, Code, is_known, is_sized};

#[derive(Clone, Copy)]
pub struct Shape {
    pub code: Code,
    ghost known: { Known code.kind } by { Prim.hlevel (props, known_prop) },
    ghost sized: { Sized code } by { Prim.hlevel props },
}

impl Shape {
    // The shape of a code whose points were not judged; none where the kind or the sizes are out of their rule.
    pub fn of(code: Code) -> Option<Shape>
        ensures { MatchOption result ((known code.kind && sized code) ≡ false) (λ s. s.code ≡ code) }
    {
        if is_known(code.kind) && is_sized(code) {
            Some(Shape { code })
        } else {
            None
        }
    }
}

impl From<Accepted> for Shape {
    fn from(accepted: Accepted) -> Shape
        ensures { result.code ≡ accepted.code }
    {
        Shape {
            code: accepted.code,
        }
    }
}
