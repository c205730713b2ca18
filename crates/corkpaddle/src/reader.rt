// The reader of records, from outside: one record at a place of a file.
ghost use Rattle.records.specs.Reading.{read_at};
ghost use Rattle.corkpaddle.specs.Reader.{Shows};

use records::reading::read_at;

// What was read, as it crosses: 0 and the places of a body; or refusal 1, no body, and the place that was asked.
// Stays: numbers in place of a Result, since no enum crosses to C.
#[repr(C)]
#[derive(Clone, Copy)]
pub struct Record {
    pub number: u64,
    pub start: u64,
    pub end: u64,
    pub next: u64,
}

// The record at a place, of whichever kind.
pub fn corkpaddle_read(file: &[u8], place: u64) -> Record
    ensures { Shows result (read_at file.now place) }
{
    match read_at(file, place as usize) {
        Ok(found) => Record {
            number: 0,
            start: found.start as u64,
            end: found.end as u64,
            next: found.next as u64,
        },
        Err(none) => Record {
            number: 1,
            start: 0,
            end: 0,
            next: none.place as u64,
        },
    }
}
