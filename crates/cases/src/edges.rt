// The edges of the judge. For each, a line with what is judged, the answer's number and, for refusal 4, its pair.
ghost use Rattle.std.specs.Prelude.{◌<◌};

use crate::answers::{Stdout, print_answer};
use codes::{Code, MBR, MSR};
use field::Symbol;
use std::fmt::Write;
use std::{array, fmt};

fn show(out: &mut Stdout, label: &str, code: Code) -> fmt::Result {
    write!(out, "{label}: ")?;
    print_answer(out, codes::judge(code))?;
    writeln!(out)
}

// A code whose points are 0, 1, 2 and so on.
fn code(kind: u8, n: u8, k: u8, d: u8) -> Code {
    Code {
        kind,
        n,
        k,
        d,
        points: array::from_fn(|i| Symbol(if i < usize::from(n) { i as u8 } else { 0 })),
    }
}

pub fn sizes(out: &mut Stdout) -> fmt::Result {
    for (label, code) in [
        ("MBR n=32 k=31 d=31", code(MBR, 32, 31, 31)),
        ("MBR n=33 k=31 d=31", code(MBR, 33, 31, 31)),
        ("MBR n=32 k=31 d=32", code(MBR, 32, 31, 32)),
        ("MBR n=2 k=1 d=1", code(MBR, 2, 1, 1)),
        ("MBR n=1 k=1 d=1", code(MBR, 1, 1, 1)),
        ("MBR n=4 k=0 d=3", code(MBR, 4, 0, 3)),
        ("MBR n=4 k=4 d=3", code(MBR, 4, 4, 3)),
        ("MSR n=3 k=1 d=1", code(MSR, 3, 1, 1)),
        ("MSR n=5 k=3 d=4", code(MSR, 5, 3, 4)),
        ("MSR n=5 k=3 d=3", code(MSR, 5, 3, 3)),
        ("MSR n=31 k=16 d=30", code(MSR, 31, 16, 30)),
    ] {
        show(out, label, code)?;
    }
    Ok(())
}

pub fn kinds(out: &mut Stdout) -> fmt::Result {
    show(out, "kind 0", code(0, 4, 2, 3))?;
    show(out, "kind 3", code(3, 4, 2, 3))
}

fn with_point(mut code: Code, at: usize, x: u8) -> Code
    requires { at < 32 }
{
    code.points[at] = Symbol(x);
    code
}

pub fn points(out: &mut Stdout) -> fmt::Result {
    let equal_cubes = with_point(code(MSR, 7, 4, 6), 5, 214);
    show(
        out,
        "MSR k=4, points 1 and 2^85 have equal cubes",
        equal_cubes,
    )?;
    let distinct = with_point(code(MBR, 7, 4, 6), 5, 214);
    show(out, "MBR, the same points", distinct)?;
    let unused = with_point(code(MBR, 4, 2, 3), 5, 9);
    show(out, "an unused point that is not zero", unused)?;
    let both = with_point(unused, 3, 1);
    show(out, "a pair and an unused point", both)
}
