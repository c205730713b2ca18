// A share file at the start of a stream: how long it is, as far as its first bytes tell, and whether it is refused.
// A reader reads 45 bytes, asks for the length, and reads the rest.
ghost use Rattle.std.specs.Prelude.{◌≡◌, ◌≤◌, ℕ};
ghost use Rattle.codes.specs.Told.{say};
ghost use Rattle.shares.specs.File.{file_told};
ghost use Rattle.streams.specs.Length.{file_length};

use codes::Refusal;
use records::numbers::number2;
use shares::{TOTAL_AT, is_total, judge_file, stripe_at};

// The length of the share file that begins with these bytes.
pub fn file_length(head: &[u8]) -> usize
    ensures { (result ≡ file_length head.now) × (45 ≤ result) × (result ≤ 34861) }
{
    let total = number2(head, TOTAL_AT);
    if head.len() >= 45 && is_total(total as u32) {
        stripe_at(total)
    } else {
        45
    }
}

// What an E record says of an answer: 0 where it is done, else the refusal's number.
pub fn number_told<T: Drop>(answer: Result<T, Refusal>) -> u8
    ensures { (v : T → ℕ) → result ≡ (say v answer).number }
{
    match answer {
        Ok(_) => 0,
        Err(r) => r.number(),
    }
}

// The number of a share file's refusal: 0 where it is accepted.
// Stays: a number, as an E record holds it; the theorem refusal-of-equal names it.
pub fn refusal_of(file: &[u8]) -> u8
    ensures { result ≡ (file_told file.now).number }
{
    number_told(judge_file(file))
}
