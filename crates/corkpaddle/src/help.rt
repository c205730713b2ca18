// A helper's symbol into a lent output, which must have room for just that.
ghost use Rattle.std.specs.Prelude.{◌≡◌};
ghost use Rattle.codes.specs.Judge.{say_judged};
ghost use Rattle.corkpaddle.specs.Help.{help_told, help_leaves};

use codes::{Code, Node, Refusal, judge};
use stripes::help;

// The code is judged here too: the room is refused after the code, and before what only the proved function tests.
pub fn help_into(
    code: Code,
    helper: Node,
    failed: Node,
    share: &[u8],
    output: &mut [u8],
) -> Result<(), Refusal>
    ensures answer { say_judged result ≡ help_told code helper.0 failed.0 share.now output.old }
    ensures written { output.new ≡ help_leaves code helper.0 failed.0 share.now output.old }
{
    judge(code)?;
    if output.len() != 1 {
        return Err(Refusal::Length);
    }
    let symbol = help(code, helper, failed, share)?;
    output[0] = symbol.0;
    Ok(())
}
