// The station that a share file belongs to, and one slip taken in its file.
ghost use Rattle.std.specs.Prelude.{◌≡◌, ◌+◌, ◌-◌, ◌≤◌, get_or, set};
ghost use Rattle.std.specs.Int.Bits.{bit_xor};
ghost use Rattle.records.specs.Writing.{put_at};
ghost use Rattle.codes.specs.Told.{answered};
ghost use Rattle.codes.specs.Reasons.{Clear};
ghost use Rattle.codes.specs.Judge.{pair_in, say_judged};
ghost use Rattle.codes.specs.Sizes.{none, alpha, bytes};
ghost use Rattle.codes.specs.Share.{slipped};
ghost use Rattle.rebuilds.specs.Rebuild.{say_counted};
ghost use Rattle.shares.specs.Fields.{code_in, count_in, part};
ghost use Rattle.shares.specs.Slip.{slip_faults, judged_told, judged_leaves, taken_in};
ghost use Rattle.streams.specs.Ready.{Ready};

use crate::weights::Weighs;
use codes::{Code, Node, Refusal};
use records::kinds::SLIP;
use records::numbers::{bytes4, number2, number4};
use records::writing::put;
use shares::{COUNT_AT, TOTAL_AT, code_in, stripe_at};

// Where the node stands in a share file.
const NODE: usize = 38;

// What a slip's change needs of the file's code and node: it is the same for every slip of the file.
#[derive(Drop)]
pub struct Station<W: Weighs> {
    code: Code,
    node: Node,
    size: usize,
    weights: W,
    ghost small: { (code.k ≤ 255) × (code.d ≤ 255) },
    ghost sized: { size ≡ bytes code },
    ghost at_point: { W.point weights ≡ (get_or code.points (node.0 - 1) none).0 },
}

// The byte at a place; 0 past the end.
// Stays: one line, beside the like in `records`, which is private there.
fn byte_at(s: &[u8], at: usize) -> u8
    ensures { result ≡ get_or s.now at 0 }
{
    s.get(at).copied().unwrap_or(0)
}

// Adds v to the byte j of the a bytes at a place.
fn nudge(file: &mut [u8], at: usize, a: usize, j: usize, v: u8)
    requires { (at ≤ 2228238) × (a ≤ 255) }
    ensures { file.new ≡ put_at file.old at (set (part file.old at a) j (bit_xor (get_or (part file.old at a) j 0) v)) }
{
    if j < a && at + j < file.len() {
        file[at + j] ^= v;
    }
}

impl<W: Weighs> Station<W> {
    // The station of a file.
    pub fn of(file: &[u8]) -> Station<W>
        ensures { Ready file.now result.code result.node.0 }
    {
        let code = code_in(file);
        let node = Node(byte_at(file, NODE));
        Station {
            code,
            node,
            size: code.bytes(),
            weights: W::at(code.point(node)),
        }
    }

    // Changes the share at a place as a change of the message's symbol does: two bytes move, or one on the diagonal.
    fn change_share(&self, file: &mut [u8], at: usize, index: u16, change: u8)
        requires { at ≤ 2228238 }
        ensures { file.new ≡ put_at file.old at (slipped self.now.code self.now.node.0 index change (part file.old at (alpha self.now.code))) }
    {
        let a = self.code.alpha();
        let cell = self.code.cell(index);
        let base = cell.lane * a;
        nudge(
            file,
            at,
            a,
            cell.col,
            self.weights.weigh(base + cell.row, change),
        );
        if cell.row != cell.col {
            nudge(
                file,
                at,
                a,
                cell.row,
                self.weights.weigh(base + cell.col, change),
            );
        }
    }

    // The slip's own faults. The count's last number has no next one.
    // Stays: `Ready` as a clause of three methods. It ties the station to a file that is lent for each slip, so no field can hold it.
    fn judge(&self, file: &[u8], slip: &[u8]) -> Result<(), Refusal>
        requires { Ready file.now self.now.code self.now.node.0 }
        ensures { say_judged result ≡ answered (slip_faults file.now slip.now) (pair_in (code_in file.now)) 0 }
    {
        if slip.len() != 10 || slip[0] != SLIP {
            return Err(Refusal::Record);
        }
        if number4(file, COUNT_AT).checked_add(1) != Some(number4(slip, 1)) {
            return Err(Refusal::Order);
        }
        if number2(slip, 5) >= number2(file, TOTAL_AT) || number2(slip, 7) as usize >= self.size {
            return Err(Refusal::Place);
        }
        Ok(())
    }

    // Takes a slip that has no fault, and answers the new count.
    fn take_faultless(&self, file: &mut [u8], slip: &[u8]) -> u32
        requires { Clear (slip_faults file.old slip.now) × Ready file.old self.now.code self.now.node.0 }
        ensures count { result ≡ count_in file.old + 1 }
        ensures left { file.new ≡ taken_in file.old slip.now }
    {
        let at = stripe_at(number2(slip, 5)) + 3;
        let count = number4(file, COUNT_AT) + 1;
        put(file, COUNT_AT, &bytes4(count));
        self.change_share(file, at, number2(slip, 7), byte_at(slip, 9));
        count
    }

    // Takes a slip in its file, which was judged before, and answers the new count.
    pub fn take(&self, file: &mut [u8], slip: &[u8]) -> Result<u32, Refusal>
        requires { Ready file.old self.now.code self.now.node.0 }
        ensures told { say_counted result ≡ judged_told file.old slip.now }
        ensures left { file.new ≡ judged_leaves file.old slip.now }
    {
        self.judge(file, slip)?;
        Ok(self.take_faultless(file, slip))
    }
}
