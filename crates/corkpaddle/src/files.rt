// One share file, from outside. The file holds its own code, so no code goes in beside it.
ghost use Rattle.std.specs.Prelude.{◌≡◌};
ghost use Rattle.shares.specs.File.{file_told};
ghost use Rattle.shares.specs.Slip.{slip_told, slip_leaves};
ghost use Rattle.books.specs.Answer.{answer_told, answer_leaves};
ghost use Rattle.corkpaddle.specs.Boundary.{Says};

use crate::Answer;
use crate::answers::crossing;
use books::answer_for;
use codes::Node;
use shares::judge_file;
use streams::take_slip;

// Whether the share file is accepted; its count.
pub fn corkpaddle_judge_file(file: &[u8]) -> Answer
    ensures { Says result (file_told file.now) }
{
    crossing(judge_file(file))
}

// A slip taken into the share file; the new count.
pub fn corkpaddle_take_slip(file: &mut [u8], slip: &[u8]) -> Answer
    ensures answer { Says result (slip_told file.old slip.now) }
    ensures written { file.new ≡ slip_leaves file.old slip.now }
{
    crossing(take_slip(file, slip))
}

// What the share file's station sends for a failed node: an H record for each stripe.
pub fn corkpaddle_answer_for(file: &[u8], failed: u8, output: &mut [u8]) -> Answer
    ensures answer { Says result (answer_told file.now failed output.old) }
    ensures written { output.new ≡ answer_leaves file.now failed output.old }
{
    crossing(answer_for(file, Node(failed), output))
}
