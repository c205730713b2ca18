// What a station answers for a failed node: one H record for each stripe of its share file.
ghost use Rattle.std.specs.Prelude.{◌≡◌, ◌*◌, length, Ok};
ghost use Rattle.stripes.specs.Encode.{say_encoded};
ghost use Rattle.shares.specs.Fields.{code_in};
ghost use Rattle.shares.specs.File.{file_reasons, Says};
ghost use Rattle.books.specs.Answer.{answers_from, answer_told, answer_leaves};

use crate::row::Row;
use codes::{Accepted, Node, Refusal};
use records::writing::put;
use shares::{Filed, code_in, help_record, judge_file, stripe_at};
use stripes::lists::is_within;

// The H records of all stripes of an accepted file, by the failed node's row, over an output of their length.
fn write_answers(file: &[u8], filed: Filed, row: &Row, output: &mut [u8])
    requires judged { Says (file_reasons file.now) file.now (Ok filed) }
    requires code { row.now.accepted.code ≡ code_in file.now }
    requires room { length output.old ≡ filed.stripes * 10 }
    ensures { output.new ≡ answers_from (code_in file.now) file.now row.now.node.0 0 filed.stripes }
{
    let a = row.accepted.code.alpha();
    for i in 0..filed.stripes {
        let start = stripe_at(i) + 3;
        let symbol = row.symbol(&file[start..start + a]);
        put(
            output,
            i as usize * 10,
            &help_record(row.node, filed.node, filed.count, i, symbol),
        );
    }
}

// Judges the file, then writes its answers for the failed node.
pub fn answer_for(file: &[u8], failed: Node, output: &mut [u8]) -> Result<(), Refusal>
    ensures told { say_encoded result ≡ answer_told file.now failed.0 output.old }
    ensures left { output.new ≡ answer_leaves file.now failed.0 output.old }
{
    let filed = judge_file(file)?;
    if output.len() != filed.stripes as usize * 10 {
        return Err(Refusal::Length);
    }
    let code = code_in(file);
    if !is_within(code, failed.0) {
        return Err(Refusal::Node);
    }
    if failed == filed.node {
        return Err(Refusal::Repeat);
    }
    let row = Row::new(Accepted { code }, failed);
    write_answers(file, filed, &row, output);
    Ok(())
}
