// A script's bytes replayed on a ring.
ghost use Rattle.std.specs.Prelude.{◌≡◌, ◌++◌, true, map, IfOk};
ghost use Rattle.protocol.specs.Limits.{roll_fits};
ghost use Rattle.protocol.specs.Refusals.{number_of};
ghost use Rattle.entries.specs.EntryState.{entries_of};
ghost use Rattle.lines.specs.LineWire.{line_lines};
ghost use Rattle.runs.specs.Rings.{result_number};
ghost use Rattle.ring.specs.Meaning.{meaning};
ghost use Rattle.print.specs.PrintLines.{refused_line};
ghost use Rattle.replay.specs.Print.{ended, answers_text, stations_text, performed_text, print_of};

use crate::answers::{append_answers, calls_among};
use crate::stations::append_stations;
use entries::entry_book::EntryBook;
use lines::line_wire::LineWire;
use print::line::Line;
use protocol::frame::Frame;
use protocol::limits::LINES_PLACES;
use protocol::refusal::{MakeError, Refusal};
use ring::ring::Ring;
use ring::ring::performing::perform;
use runs::call::Call;
use script::script::{Script, ScriptError, read_script};
use std::alloc::{AllocError, Global};
use vote::heads::Heads;
use vote::rule::VotingRule;

// the bytes that a print has room for at first; the room doubles when it is full, and so stays a power of two
const FIRST_ROOM: usize = 128;

// A ring over the line wire, with entry books, that votes by heads.
pub type EntryRing = Ring<LineWire<Frame>, EntryBook, Heads>;

// The print of a text that is no script: its one refused line.
fn refused_print(heap: Global, line: usize, refusal: Refusal) -> Result<Vec<u8>, AllocError>
    ensures { IfOk result (λ v. v.items ≡ ended (refused_line line (number_of refusal))) }
{
    let mut text = Vec::new(heap);
    let number = refusal.number();
    Line::Refused { line, number }.append(&mut text)?;
    Ok(text)
}

// The print of a ring that has gone through a script's lines, with the answers that it gave.
fn ring_print(
    heap: Global,
    ring: &EntryRing,
    roll: u8,
    lines: &[Result<Call, Refusal>],
    given: &[Result<(), Refusal>],
) -> Result<Vec<u8>, AllocError>
    ensures { IfOk result (λ v. v.items ≡ answers_text 2 lines.now (map result_number given.now) ++ stations_text (meaning entries_of line_lines ring.now).stations 0 roll) }
{
    let mut text = Vec::with_capacity(heap, FIRST_ROOM)?;
    append_answers(lines, given, &mut text)?;
    append_stations(ring, roll, &mut text)?;
    Ok(text)
}

// The print of a script: its lines are performed on a new ring. A lawful roll is refused neither the wire nor the rule.
fn performed_print(heap: Global, script: &Script) -> Result<Vec<u8>, AllocError>
    requires { roll_fits script.now.roll ≡ true }
    ensures { IfOk result (λ v. v.items ≡ performed_text script.now.roll script.now.calls.items) }
{
    let calls = calls_among(heap, &script.calls)?;
    let places = vec![in heap; Frame::IDLE; LINES_PLACES]?;
    let Ok(wire) = LineWire::new(script.roll, places) else {
        unreachable!();
    };
    let Ok(rule) = Heads::new(script.roll) else {
        unreachable!();
    };
    let book = EntryBook::new(heap)?;
    match perform(heap, wire, rule, &book, &calls) {
        Ok((ring, given)) => ring_print(heap, &ring, rule.roll(), &script.calls, &given),
        Err(MakeError::Memory(error)) => Err(error),
        Err(MakeError::Refused(_)) => unreachable!(),
    }
}

// The print of a script. Want of memory is the only error.
pub fn replay(heap: Global, text: &[u8]) -> Result<Vec<u8>, AllocError>
    ensures { IfOk result (λ v. v.items ≡ print_of text.now) }
{
    match read_script(text, heap) {
        Ok(script) => performed_print(heap, &script),
        Err(ScriptError::Refused { line, refusal }) => refused_print(heap, line, refusal),
        Err(ScriptError::Memory(error)) => Err(error),
    }
}
