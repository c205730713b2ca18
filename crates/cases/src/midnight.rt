// The midnight story, as it should have gone. Code A's book of one stripe is cut for four stations. A slip is delivered twice
// at each, and the second delivery is refused. A later slip reaches one station, whose share is then lost; it is rebuilt from the others at
// the earlier count. Both slips are sent again. At the end each share is the one that is cut from the corrected book, but for the count.
use crate::answers::{Stdout, print_answer};
use batches::rebuild_file;
use books::{answer_for, cut};
use codes::{Code, MBR, Node};
use field::Symbol;
use records::numbers::number4;
use std::fmt;
use std::fmt::Write;
use streams::take_slip;

const FIRST: [u8; 10] = [80, 0, 0, 0, 1, 0, 0, 0, 1, 1];

const SECOND: [u8; 10] = [80, 0, 0, 0, 2, 0, 0, 0, 3, 1];

fn code_a() -> Code {
    let mut points = [Symbol::ZERO; 32];
    points[..4].copy_from_slice(&[Symbol(1), Symbol(2), Symbol(3), Symbol(4)]);
    Code {
        kind: MBR,
        n: 4,
        k: 2,
        d: 3,
        points,
    }
}

// The share files of the four stations, cut from a book.
fn cut_all(book: &[u8; 5]) -> [[u8; 79]; 4] {
    let mut files = [[0u8; 79]; 4];
    for (i, file) in files.iter_mut().enumerate() {
        let _ = cut(code_a(), Node(i as u8 + 1), 1, book, file);
    }
    files
}

// The station, the count and the three symbols of each share file.
fn show_all(out: &mut Stdout, files: &[[u8; 79]; 4]) -> fmt::Result {
    for file in files {
        let count = number4(file, 41);
        writeln!(
            out,
            "  station {} at count {count}: {} {} {}",
            file[38], file[48], file[49], file[50]
        )?;
    }
    Ok(())
}

// Delivers a slip, and prints the answer.
fn deliver(out: &mut Stdout, file: &mut [u8; 79], slip: &[u8; 10]) -> fmt::Result {
    write!(out, " ")?;
    print_answer(out, take_slip(file, slip))
}

// Delivers a slip to each station in turn.
fn deliver_all(out: &mut Stdout, files: &mut [[u8; 79]; 4], slip: &[u8; 10]) -> fmt::Result {
    write!(out, "slip {} to each station:", number4(slip, 1))?;
    for file in files.iter_mut() {
        deliver(out, file, slip)?;
    }
    writeln!(out)
}

// Rebuilds the share of station 1 from the answers of the others.
fn rebuild_first(out: &mut Stdout, files: &mut [[u8; 79]; 4]) -> fmt::Result {
    let mut answers = [0u8; 30];
    for (answer, file) in answers.chunks_exact_mut(10).zip(&files[1..]) {
        let _ = answer_for(file, Node(1), answer);
    }
    files[0] = [0; 79];
    write!(out, "share of station 1 lost, and rebuilt: ")?;
    print_answer(
        out,
        rebuild_file(code_a(), Node(1), 1, &answers, &mut files[0]),
    )?;
    writeln!(out)
}

pub fn midnight(out: &mut Stdout) -> fmt::Result {
    writeln!(out, "the book 1 2 3 4 5 is cut")?;
    let mut files = cut_all(&[1, 2, 3, 4, 5]);
    show_all(out, &files)?;
    deliver_all(out, &mut files, &FIRST)?;
    deliver_all(out, &mut files, &FIRST)?;
    write!(out, "slip 2 to station 1 alone:")?;
    deliver(out, &mut files[0], &SECOND)?;
    writeln!(out)?;
    rebuild_first(out, &mut files)?;
    show_all(out, &files)?;
    deliver_all(out, &mut files, &FIRST)?;
    deliver_all(out, &mut files, &SECOND)?;
    show_all(out, &files)?;
    writeln!(out, "the corrected book 1 3 3 5 5 is cut")?;
    show_all(out, &cut_all(&[1, 3, 3, 5, 5]))
}
