// What is timed: calls in groups, each for a row of the table.
use anyhow::{Context, bail};
use runs::call::Call;
use script::command::{Command, command_of};
use std::fs;

// the rows that a line can name; row 0 is not for the table
pub const ROWS: usize = 6;

// Calls that are timed together.
#[derive(Drop)]
pub struct Group {
    pub row: usize,
    pub calls: Vec<Call>,
}

#[derive(Drop)]
pub struct Plan {
    pub roll: u32,
    pub groups: Vec<Group>,
}

// Reads a plan: a `roll=` line, and then lines of a row's digit and a script's line. Calls of one row that follow one
// another are a group.
pub fn read_plan(rt: &HostRuntime, file: &str) -> anyhow::Result<Plan> {
    let heap = rt.alloc();
    let text = fs::read_to_string(rt, file)?;
    let mut roll = 0u32;
    let mut groups = Vec::new(heap);
    let mut group = Group {
        row: 0,
        calls: Vec::new(heap),
    };
    for line in text.as_str().lines() {
        let bytes = line.as_bytes();
        if let Ok(Command::Roll(n)) = command_of(bytes) {
            roll = n;
            continue;
        }
        let (mark, rest) = bytes.split_first().context("an empty line")?;
        let row = mark.wrapping_sub(b'0') as usize;
        let Ok(Command::Call(call)) = command_of(rest) else {
            bail!("a line is no call");
        };
        if row >= ROWS {
            bail!("a line names no row");
        }
        if row != group.row {
            groups.push(group)?;
            group = Group {
                row,
                calls: Vec::new(heap),
            };
        }
        group.calls.push(call)?;
    }
    groups.push(group)?;
    Ok(Plan { roll, groups })
}
