// A whole text read as a script.
ghost use Rattle.std.specs.Prelude.{◌≡◌};
ghost use Rattle.script.specs.Reading.{reading};
ghost use Rattle.script.specs.Script.{as_roll, later_line, ReadsScript};
ghost use Rattle.script.specs.declared.script.ScriptError.TheVariants.{Memory};

use crate::command::{Command, command_of};
use crate::limits::MAX_TEXT;
use crate::lines::Lines;
use protocol::refusal::Refusal;
use protocol::roll::roll_size;
use runs::call::Call;
use std::alloc::{AllocError, Global};

// A roll of 1 to 8 stations, and what each line after the first is: line 2 stands at place 0.
#[derive(Debug, Drop)]
pub struct Script {
    pub roll: u32,
    pub calls: Vec<Result<Call, Refusal>>,
}

// Why a text is no script: the line that is refused (0 is the whole text), or want of memory.
#[derive(Clone, Copy, PartialEq, Eq, Debug)]
pub enum ScriptError {
    Refused { line: usize, refusal: Refusal },
    Memory(AllocError),
}

impl From<AllocError> for ScriptError {
    ghost from_gives = { λ error e. e ≡ Memory error };

    fn from(error: AllocError) -> ScriptError {
        ScriptError::Memory(error)
    }
}

// The size of the roll, which the first line tells.
fn roll_of(line: &[u8]) -> Result<u32, Refusal>
    ensures { result ≡ as_roll (reading line.now) }
{
    match command_of(line)? {
        Command::Roll(n) => roll_size(n as usize).map(u32::from),
        Command::Call(_) => Err(Refusal::CommandFirst),
    }
}

// The call that a later line is.
fn call_at(line: &[u8]) -> Result<Call, Refusal>
    ensures { result ≡ later_line line.now }
{
    match command_of(line)? {
        Command::Roll(_) => Err(Refusal::MisshapenLine),
        Command::Call(call) => Ok(call),
    }
}

// Reads a text as a script. A line that is refused does not hinder those after it.
pub fn read_script(text: &[u8], heap: Global) -> Result<Script, ScriptError>
    ensures { ReadsScript text.now result }
{
    if text.len() > MAX_TEXT {
        return Err(ScriptError::Refused {
            line: 0,
            refusal: Refusal::TextTooLong,
        });
    }
    let mut lines = Lines { left: Some(text) };
    let roll = lines
        .next()
        .ok_or(Refusal::MisshapenLine)
        .and_then(roll_of)
        .map_err(|refusal| ScriptError::Refused { line: 1, refusal })?;
    let calls = lines.map(call_at).collect(heap)?;
    Ok(Script { roll, calls })
}
