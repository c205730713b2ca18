// A reader over a share file. It holds the file and the place it has reached.
#![tactic(auto)]

ghost use Rattle.std.specs.Prelude.{◌≡◌};
ghost use Rattle.records.specs.Reading.{told, told_at};
ghost use Rattle.readers.specs.Readers.{at_start, step_from, nth, told_nth};

use records::reading::{Found, NoRecord, read_at};

#[derive(Clone, Copy)]
pub struct Reader<'a> {
    pub file: &'a [u8],
    pub place: usize,
}

impl<'a> Reader<'a> {
    // A reader at the start of a file.
    pub fn open(file: &'a [u8]) -> Reader<'a>
        ensures { result ≡ at_start file.entry }
    {
        Reader { file, place: 0 }
    }

    // The next record. The reader moves on to the next place, or stays where it is if the record is refused.
    pub fn next(&mut self) -> Result<Found, NoRecord>
        ensures answer { result ≡ (step_from self.old).answer }
        ensures moved { self.new ≡ (step_from self.old).reader }
        ensures told { told result ≡ told_at self.old.file.now self.old.place }
    {
        let found = read_at(self.file, self.place)?;
        self.place = found.next;
        Ok(found)
    }
}

// The record before which n others stand, or the first refusal on the way to it.
pub fn read_nth(file: &[u8], n: usize) -> Result<Found, NoRecord>
    ensures { (result ≡ nth file.now n) × (told result ≡ told_nth file.now n) }
{
    let mut reader = Reader::open(file);
    for _ in 0..n {
        reader.next()?;
    }
    reader.next()
}
