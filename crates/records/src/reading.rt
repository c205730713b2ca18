// Reading: one record at a place of a file, and its body.
//
// A place is any usize. What is left of the file is found by subtraction, so that no sum can wrap.
ghost use Rattle.std.specs.Prelude.{◌≡◌};
ghost use Rattle.records.specs.Reading.{read_at, read_as, told, told_at, told_as, body_at};

use crate::kinds::body_of;

// A record's body, as a part of the file, and the next place.
#[derive(Clone, Copy, PartialEq, Eq)]
pub struct Found {
    pub start: usize,
    pub end: usize,
    pub next: usize,
}

// The place where no record could be read: document 01's refusal 1.
#[derive(Clone, Copy, PartialEq, Eq)]
pub struct NoRecord {
    pub place: usize,
}

// The record at a place, of whichever kind.
#[tactic(auto, using(crate::proofs::Whole::past, crate::proofs::Whole::unknown, crate::proofs::Whole::cut, crate::proofs::Whole::stands))]
pub fn read_at(file: &[u8], place: usize) -> Result<Found, NoRecord>
    ensures answer { result ≡ read_at file.now place }
    ensures told { told result ≡ told_at file.now place }
{
    let kind = *file.get(place).ok_or(NoRecord { place })?;
    let length = body_of(kind);
    let start = place + 1;
    if length == 0 || length > file.len() - start {
        return Err(NoRecord { place });
    }
    let end = start + length;
    Ok(Found {
        start,
        end,
        next: end,
    })
}

// The record at a place, where its kind is the one expected there.
pub fn read_as(file: &[u8], place: usize, kind: u8) -> Result<Found, NoRecord>
    ensures answer { result ≡ read_as file.now place kind }
    ensures told { told result ≡ told_as file.now place kind }
{
    let found = read_at(file, place)?;
    if file[place] != kind {
        return Err(NoRecord { place });
    }
    Ok(found)
}

// A named body, as the file's own bytes: the empty part where there is no such part.
pub fn body(file: &[u8], start: usize, end: usize) -> &[u8]
    ensures { result.now ≡ body_at file.now start end }
{
    file.get(start..end).unwrap_or(&[])
}
