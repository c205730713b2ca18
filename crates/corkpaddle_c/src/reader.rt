// The export of the reader of records: it calls the library's function and states its clause again.
ghost use Rattle.records.specs.Reading.{read_at};
ghost use Rattle.corkpaddle.specs.Reader.{Shows};

use corkpaddle::reader;
use corkpaddle::reader::Record;

// The record at a place, of whichever kind.
#[unsafe(no_mangle)]
pub extern "C" fn corkpaddle_read(file: &[u8], place: u64) -> Record
    ensures { Shows result (read_at file.now place) }
{
    reader::corkpaddle_read(file, place)
}
