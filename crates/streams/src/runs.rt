// A run of slip records, taken one after the other in a file that was judged before.
ghost use Rattle.std.specs.Prelude.{◌*◌, ◌≤◌, length};
ghost use Rattle.streams.specs.Stream.{begun, Walks, Took};

use crate::heads::number_told;
use crate::station::Station;
use crate::weights::Weights;
use codes::Refusal;
use records::kinds::ANSWER;
use records::writing::put;

// How many bytes of answers were written, and whether the reading has ended.
// Stays: both fields always mean something, and what a run gives is stated field by field in `Took`.
#[derive(Clone, Copy)]
pub struct Walked {
    pub written: usize,
    pub ended: bool,
}

// Takes all records of a run that has room for its answers.
fn take_all(file: &mut [u8], run: &[u8], answers: &mut [u8]) -> Walked
    requires { begun (length run.now) * 2 ≤ length answers.old }
    ensures { Walks file.old run.now answers.old result.written result.ended file.new answers.new }
{
    let station = Station::<Weights>::of(file);
    // Stays: `written` counted by hand, since it is the answer.
    let mut written: usize = 0;
    for slip in run.chunks(10) {
        let taken = station.take(file, slip);
        put(answers, written, &[ANSWER, number_told(taken)]);
        written += 2;
        if taken == Err(Refusal::Record) {
            return Walked {
                written,
                ended: true,
            };
        }
    }
    Walked {
        written,
        ended: false,
    }
}

// Takes a run of slip records: an E record for each into the answers' run; a record that is cut short or of another kind ends the reading.
// Where the answers' run has too little room, nothing is done.
pub fn take_run(file: &mut [u8], run: &[u8], answers: &mut [u8]) -> Walked
    ensures { Took file.old run.now answers.old result.written result.ended file.new answers.new }
{
    if answers.len() / 2 < run.len().div_ceil(10) {
        return Walked {
            written: 0,
            ended: false,
        };
    }
    take_all(file, run, answers)
}
