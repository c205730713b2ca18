// Taking a slip: its change is added to the share of its stripe, and the count goes up by one.
ghost use Rattle.std.specs.Prelude.{◌≡◌};
ghost use Rattle.rebuilds.specs.Rebuild.{say_counted};
ghost use Rattle.shares.specs.Slip.{slip_told, slip_leaves};

use crate::station::Station;
use codes::Refusal;
use field::Symbol;
use shares::judge_file;

// Judges the file, then takes the slip.
pub fn take_slip(file: &mut [u8], slip: &[u8]) -> Result<u32, Refusal>
    ensures told { say_counted result ≡ slip_told file.old slip.now }
    ensures left { file.new ≡ slip_leaves file.old slip.now }
{
    judge_file(file)?;
    Station::<Symbol>::of(file).take(file, slip)
}
