// The lines of a script: the calls among them, and the print of those that are refused.
ghost use Rattle.std.specs.Prelude.{◌≡◌, map, IfOk};
ghost use Rattle.std.specs.Slice.Iter.{iter_rest};
ghost use Rattle.runs.specs.Rings.{result_number};
ghost use Rattle.replay.specs.Print.{answer_text, calls_among, answers_text, Extended};
ghost use Rattle.replay.specs.Parts.{answer_to, left_after};

use print::line::Line;
use protocol::refusal::Refusal;
use runs::call::Call;
use std::alloc::{AllocError, Global};
use std::slice::Iter;

// the number of the line after the roll
const FIRST_CALL: usize = 2;

// The calls among what the lines are.
pub(crate) fn calls_among(
    heap: Global,
    lines: &[Result<Call, Refusal>],
) -> Result<Vec<Call>, AllocError>
    ensures { IfOk result (λ v. v.items ≡ calls_among lines.now) }
{
    lines.iter().filter_map(|line| line.ok()).collect(heap)
}

// What a line is answered by: its own refusal, or the next of the answers that the ring gave.
fn answer_to(
    line: Result<Call, Refusal>,
    given: &mut Iter<'_, Result<(), Refusal>>,
) -> Result<(), Refusal>
    ensures answer { result_number result ≡ answer_to line (map result_number (iter_rest given.old)) }
    ensures left { map result_number (iter_rest given.new) ≡ left_after line (map result_number (iter_rest given.old)) }
{
    line?;
    given.next().copied().unwrap_or(Ok(()))
}

// Adds a line that is refused; an accepted one adds nothing.
fn append_answer(
    line: usize,
    answer: Result<(), Refusal>,
    text: &mut Vec<u8>,
) -> Result<(), AllocError>
    ensures { Extended (answer_text line (result_number answer)) text.old.items text.new.items result }
{
    match answer {
        Ok(()) => Ok(()),
        Err(refusal) => {
            let number = refusal.number();
            Line::Refused { line, number }.append(text)
        }
    }
}

// Adds the refused ones of the lines, of which the ring answered the calls.
pub(crate) fn append_answers(
    lines: &[Result<Call, Refusal>],
    given: &[Result<(), Refusal>],
    text: &mut Vec<u8>,
) -> Result<(), AllocError>
    ensures { Extended (answers_text 2 lines.now (map result_number given.now)) text.old.items text.new.items result }
{
    let mut given = given.iter();
    for (i, line) in lines.iter().enumerate() {
        let answer = answer_to(*line, &mut given);
        append_answer(FIRST_CALL + i, answer, text)?;
    }
    Ok(())
}
