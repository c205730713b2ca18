// A code that the judge accepted. Whoever needs document 01's rules of a code takes one of these, and asks nothing more.
ghost use Rattle.std.proofs.Props.{props};
ghost use Rattle.codes.specs.Rules.{Rules};
ghost use Rattle.codes.specs.Known.{known_prop};

use crate::Code;

#[derive(Clone, Copy)]
pub struct Accepted {
    pub code: Code,
    ghost rules: { Rules code } by { Prim.hlevel (props, known_prop) },
}
