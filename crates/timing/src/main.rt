// Times calls on rings, and whole scripts: bench/README.md says how it is used.
#![tactic(auto)]

mod plan;
mod rings;

use plan::{Group, ROWS, read_plan};
use replay::replay::{EntryRing, replay};
use rings::{count_refused, make_rings, sums};
use std::time::Instant;
use std::{env, fs};

// how often the clock is read to tell what that costs
const CLOCK_READS: u32 = 100_000;

// The calls of a row, and the time that they took.
#[derive(Clone, Copy, Default)]
struct Row {
    calls: usize,
    nanos: u128,
}

// Makes the calls of a plan on new rings, one group after another; prints the time that each row took, and answers how
// many calls were refused.
fn time_groups(rt: &HostRuntime, rings: &mut [EntryRing], groups: &[Group]) -> anyhow::Result<u64> {
    let mut rows = [Row::default(); ROWS];
    let mut refused = 0u64;
    for group in groups {
        let start = Instant::now(rt)?;
        let more = count_refused(rings, group.calls.as_slice());
        let spent = start.elapsed(rt)?.as_nanos();
        refused = refused.saturating_add(more);
        let calls = group.calls.len().saturating_mul(rings.len());
        let row = &mut rows[group.row.min(ROWS - 1)];
        row.calls = row.calls.saturating_add(calls);
        row.nanos = row.nanos.saturating_add(spent);
    }
    for (i, Row { calls, nanos }) in rows.iter().enumerate() {
        println!(rt; "row={i} calls={calls} nanos={nanos}")?;
    }
    Ok(refused)
}

// Times the calls of a plan, each time on so many new rings.
fn time_calls(rt: &HostRuntime, file: &str, rounds: u32, count: u32) -> anyhow::Result<()> {
    let plan = read_plan(rt, file)?;
    let mut firm = 0u64;
    let mut length = 0u64;
    let mut refused = 0u64;
    for _ in 0..rounds {
        let mut rings = make_rings(rt, plan.roll, count)?;
        let more = time_groups(rt, rings.as_mut_slice(), plan.groups.as_slice())?;
        refused = refused.saturating_add(more);
        for ring in rings.iter() {
            let (more_firm, more_length) = sums(ring, plan.roll);
            firm = firm.saturating_add(more_firm);
            length = length.saturating_add(more_length);
        }
    }
    println!(rt; "firm={firm} length={length} refused={refused}")?;
    Ok(())
}

// Times the replay of a script.
fn time_script(rt: &HostRuntime, file: &str, rounds: u32) -> anyhow::Result<()> {
    let text = fs::read(rt, file)?;
    let mut bytes = 0u64;
    for _ in 0..rounds {
        let start = Instant::now(rt)?;
        let print = replay(rt.alloc(), text.as_slice())?;
        let nanos = start.elapsed(rt)?.as_nanos();
        bytes = bytes.saturating_add(print.len() as u64);
        println!(rt; "row=1 calls=1 nanos={nanos}")?;
    }
    println!(rt; "bytes={bytes}")?;
    Ok(())
}

// Prints what lies between two readings of the clock.
fn time_clock(rt: &HostRuntime) -> anyhow::Result<()> {
    let mut nanos = 0u128;
    for _ in 0..CLOCK_READS {
        let start = Instant::now(rt)?;
        nanos = nanos.saturating_add(start.elapsed(rt)?.as_nanos());
    }
    println!(rt; "clock={CLOCK_READS} nanos={nanos}")?;
    Ok(())
}

fn main(rt: HostRuntime) -> anyhow::Result<()> {
    let mut words = env::args(&rt)?;
    let _ = words.next();
    let (Some(file), Some(rounds)) = (words.next(), words.next()) else {
        println!(rt; "usage: timing FILE ROUNDS [RINGS]")?;
        return Ok(());
    };
    let rounds = rounds.as_str().parse::<u32>()?;
    match words.next() {
        None => time_script(&rt, file.as_str(), rounds)?,
        Some(count) => time_calls(&rt, file.as_str(), rounds, count.as_str().parse::<u32>()?)?,
    }
    time_clock(&rt)
}
