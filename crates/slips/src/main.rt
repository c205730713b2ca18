// The program `slips`: reads a share file from standard input, then slip records to the end, and writes an answer for each and the share file.
//
// What it decides is decided by the crate `streams`, whose theorems say what these pieces give together. Here is only reading and
// writing, which no contract can speak of: each function is proved safe, and that it ends. Where writing fails the program ends.
#![tactic(auto)]

ghost use Rattle.std.specs.Prelude.{◌≤◌, length};

use records::kinds::ANSWER;

// Standard input and standard output, as the system numbers them.
// Stays: the kit's `io`, since std's streams reach the contract of the error number, and nothing new may be assumed.
const STDIN: i32 = 0;

const STDOUT: i32 = 1;

// Nothing can be written any more.
#[derive(Clone, Copy)]
struct Closed;

fn write(bytes: &[u8]) -> Result<(), Closed> {
    if io::write_all(STDOUT, bytes) {
        Ok(())
    } else {
        Err(Closed)
    }
}

// Reads, takes and answers one chunk of slips: 4,096 records. Says whether more may follow.
fn turn(file: &mut [u8]) -> Result<bool, Closed> {
    let mut run = [0u8; 40960];
    let mut answers = [0u8; 8192];
    let n = io::read_full(STDIN, &mut run);
    let walked = streams::take_run(file, &run[..n], &mut answers);
    write(&answers[..walked.written])?;
    Ok(!walked.ended && n == run.len())
}

// Takes chunk after chunk, then writes the file. A proved loop has to end, and nothing says that the input does: the turns are
// counted, and no input uses up their number.
fn walk(file: &mut [u8]) -> Result<(), Closed> {
    for _ in 0..u64::MAX {
        if !turn(file)? {
            return write(file);
        }
    }
    Ok(())
}

// Reads the share file: 45 bytes, then what its N record says. A refused one is answered with that one record and nothing else.
fn serve(file: &mut [u8]) -> Result<(), Closed>
    requires { 34861 ≤ length file.old }
{
    let head = io::read_full(STDIN, &mut file[..45]);
    let whole = streams::file_length(&file[..head]);
    let all = head + io::read_full(STDIN, &mut file[head..whole]);
    let file = &mut file[..all];
    match streams::refusal_of(file) {
        0 => walk(file),
        refusal => write(&[ANSWER, refusal]),
    }
}

// There is room for the longest share file.
fn main() {
    let mut file = [0u8; 34861];
    let _ = serve(&mut file);
}
