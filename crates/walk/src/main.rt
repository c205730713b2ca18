// Document 01's whole file, read record by record: for each record its kind, where its body starts and ends, and the next place;
// then the refusal at the end. After it the same file cut by one byte, and with another kind byte.
//
// The program asks for each record by its number. What cannot be written is left out, and the program goes on.
#![tactic(auto)]

use records::reading::{Found, NoRecord, body};
use records::writing::put;
use std::fmt;
use std::fmt::Write;
use std::ops::Range;

// Standard output, through the kit's `io`. A write that fails is passed over, and the next one is tried.
// Stays: in each program, since a crate more for twelve lines would be no plainer.
#[derive(Clone, Copy)]
struct Stdout;

impl fmt::Write for Stdout {
    fn write_str(&mut self, text: &str) -> fmt::Result {
        io::write_all(1, text.as_bytes());
        Ok(())
    }
}

// One record, which stands at a place: its kind byte is the one there. The next place is given back.
fn show(out: &mut Stdout, file: &[u8], n: usize, place: usize) -> usize {
    match readers::read_nth(file, n) {
        Ok(Found { start, end, next }) => {
            let kind = char::from(file.get(place).copied().unwrap_or(0));
            let _ = writeln!(
                out,
                "record {n}: kind {kind}, start {start}, end {end}, next {next}"
            );
            next
        }
        Err(NoRecord { place }) => {
            let _ = writeln!(out, "record {n}: refused at {place}");
            place
        }
    }
}

// The records with those numbers, the first of which stands at a place. The place after the last is given back.
fn show_all(out: &mut Stdout, file: &[u8], numbers: Range<usize>, start: usize) -> usize {
    let mut place = start;
    for n in numbers {
        place = show(out, file, n, place);
    }
    place
}

// Code A, node 2, one stripe, count 0.
fn worked() -> [u8; 79] {
    let mut file = [0u8; 79];
    put(&mut file, 0, b"C\x01\x04\x02\x03\x01\x02\x03\x04");
    put(&mut file, 37, b"N\x02\x00\x01");
    put(&mut file, 45, b"D\x00\x00\x15\x10\x0e");
    file
}

fn whole(out: &mut Stdout) {
    let file = worked();
    let end = show_all(out, &file, 0..4, 0);
    show(out, &file, usize::MAX, end);
}

fn cut(out: &mut Stdout) {
    let _ = writeln!(out, "cut by one byte");
    let file = worked();
    show_all(out, body(&file, 0, 78), 1..4, 37);
}

fn other_kind(out: &mut Stdout) {
    let _ = writeln!(out, "the second kind byte another");
    let mut file = worked();
    file[37] = 79;
    show_all(out, &file, 0..3, 0);
}

fn main() {
    let mut out = Stdout;
    whole(&mut out);
    cut(&mut out);
    other_kind(&mut out);
}
